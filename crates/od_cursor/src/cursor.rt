//! Walks over posting lists, whatever form they are kept in.
ghost use Rattle.std.specs.Prelude.{◌≡◌, drop, slice_get};
ghost use Rattle.od_cursor.specs.Postings.{IsPostingList, from_sentence};

/// A place in a posting list: strictly ascending pairs of a sentence, numbered from 0, and a
/// second number that says where in the sentence. A cursor stands for the rest of its list.
pub trait Cursor {
    ghost use Rattle.std.specs.Prelude.{ℕ, List};

    ghost rest: { Self → List (ℕ × ℕ) };

    /// The first pair of the rest, or `None` at the end.
    fn at(&self) -> Option<(u32, u32)>
        ensures first { result ≡ slice_get (rest self.now) 0 }
        ensures ascends { IsPostingList (rest self.now) };

    /// Drops the first pair of the rest. An empty rest stays as it is.
    fn next(&mut self)
        ensures { rest self.new ≡ drop 1 (rest self.old) };

    /// Drops the pairs of smaller sentences.
    fn skip_to(&mut self, sentence: u32)
        ensures { rest self.new ≡ from_sentence sentence (rest self.old) };
}
