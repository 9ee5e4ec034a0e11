//! Notes of places by hash.
ghost use Rattle.std.specs.Prelude.{◌≡◌, [], ℕ, OnOk, OnErr};
ghost use Rattle.od_mentions.specs.Notes.{noted, NotesOne, NotesSame, LosesOne};

use od_text::text::NoMemory;
use std::alloc::Global;
use std::collections::HashMap;

/// Places in a list of mentions by a hash, ascending under each hash.
#[derive(Drop)]
pub(crate) struct Notes {
    places: HashMap<u64, Vec<usize>>,
}

impl Notes {
    /// No note.
    pub(crate) fn new(alloc: Global) -> Notes
        ensures { (hash : ℕ) → noted result hash ≡ [] }
    {
        Notes {
            places: HashMap::new(alloc),
        }
    }

    /// The places that are noted under a hash.
    pub(crate) fn at(&self, hash: u64) -> &[usize]
        ensures { result.now ≡ noted self.now hash }
    {
        match self.places.get(&hash) {
            None => &[],
            Some(places) => places.as_slice(),
        }
    }

    /// Notes one place more under a hash; where memory is refused, the notes stay as they were.
    pub(crate) fn note(&mut self, alloc: Global, hash: u64, place: usize) -> Result<(), NoMemory>
        ensures ok { OnOk result (NotesOne self.old self.new hash place) }
        ensures err { OnErr result (NotesSame self.old self.new) }
    {
        match self.places.get_mut(&hash) {
            Some(places) => {
                places.push(place)?;
                Ok(())
            }
            None => {
                let mut places = Vec::new(alloc);
                places.push(place)?;
                self.places.insert(hash, places)?;
                Ok(())
            }
        }
    }

    /// Drops the last place under a hash, if there is one.
    pub(crate) fn unnote(&mut self, hash: u64)
        ensures { LosesOne self.old self.new hash }
    {
        if let Some(places) = self.places.get_mut(&hash) {
            let _ = places.pop();
        }
    }
}
