//! The places of texts in a list.
ghost use Rattle.std.specs.Prelude.{◌≡◌, ◌++◌, [], ◌∷◌, ℕ, List, Contains, MatchOption, OnOk, OnErr, None, Some, length, slice_get, position, bytes_eq};
ghost use Rattle.od_constraint.specs.Places.{ArePlaces};

use od_names::names::Names;
use od_text::text::{NoMemory, Text};
use std::alloc::Global;

/// For each different text of a list the place where it stands first, looked up in a map.
#[derive(Drop)]
pub(crate) struct Places {
    // The different texts, and beside each its place.
    names: Names,
    at: Vec<usize>,
}

/// What stands at a place.
fn got(at: &[usize], place: usize) -> Option<usize>
    ensures { result ≡ slice_get at.now place }
{
    at.get(place).copied()
}

impl Places {
    /// Those of no text.
    pub(crate) fn new(alloc: Global) -> Places
        ensures { ArePlaces result [] }
    {
        Places {
            names: Names::new(alloc),
            at: Vec::new(alloc),
        }
    }

    /// The place of a text, where the list has it.
    pub(crate) fn find(&self, text: &Text) -> Option<usize>
        ensures { (texts : List (List ℕ)) → ArePlaces self.now texts
            → MatchOption result (Contains texts text.now → ⊥)
            (λ place. slice_get texts place ≡ Some text.now) }
    {
        match self.names.place(text) {
            Some(number) => got(&self.at, number),
            None => None,
        }
    }

    /// One more name, with its place; where memory is refused, they stay as they are.
    fn add(&mut self, alloc: Global, text: &Text, place: usize) -> Result<(), NoMemory>
        requires { position (λ other. bytes_eq other text.now) self.old.names ≡ None }
        ensures names { OnOk result (self.new.names ≡ self.old.names ++ text.now ∷ []) }
        ensures places { OnOk result (self.new.at.items ≡ self.old.at.items ++ place ∷ []) }
        ensures same_names { OnErr result (self.new.names ≡ self.old.names) }
        ensures same_places { OnErr result (self.new.at.items ≡ self.old.at.items) }
    {
        self.at.reserve(1)?;
        self.names.push(alloc, text)?;
        self.at.push_reserved(place);
        Ok(())
    }

    /// One more text at the end of the list, which had `len` texts; where memory is refused, they
    /// stay those of the list as it was.
    pub(crate) fn push(&mut self, alloc: Global, text: &Text, len: usize) -> Result<(), NoMemory>
        ensures ok { OnOk result ((texts : List (List ℕ)) → length texts ≡ len
            → ArePlaces self.old texts → ArePlaces self.new (texts ++ text.now ∷ [])) }
        ensures err { OnErr result ((texts : List (List ℕ)) → ArePlaces self.old texts
            → ArePlaces self.new texts) }
    {
        match self.names.place(text) {
            Some(_) => Ok(()),
            None => {
                self.add(alloc, text, len)?;
                Ok(())
            }
        }
    }
}
