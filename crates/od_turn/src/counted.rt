//! What a value behind the lock tells of itself.
ghost use Rattle.std.specs.Prelude.{◌≡◌, List, length};
ghost use Rattle.od_mark.specs.declared.mark.Mark.{Mark};
ghost use Rattle.od_mark.specs.declared.origin.Origin.{Origin};

/// A value that stands for the marks that turns left in it, and for where their history goes on from.
pub trait Counted {
    /// The marks, in the order of the turns.
    ghost marks: { Self → List Mark };

    /// What no turn changes.
    ghost origin: { Self → Origin };

    /// The number of marks.
    fn count(&self) -> u64
        ensures { result ≡ length (marks self.now) };
}
