//! Names in a row, each with its place.
ghost use Rattle.std.specs.Prelude.{◌≡◌, [], ◌∷◌, ◌++◌, OnOk, OnErr, None, position, bytes_eq};

use od_text::text::{NoMemory, Text};
use std::alloc::Global;
use std::collections::BTreeMap;
use std::marker::Model;

/// Names in the order in which they came. The place of a name is looked up in a map.
#[derive(Drop)]
pub struct Names {
    places: BTreeMap<String, usize>,
}

impl Model for Names {
    ghost use Rattle.std.specs.Prelude.{ℕ, List};
    ghost use Rattle.od_names.specs.Numbered.{listed, IsNumbered};

    ghost Value = { List (List ℕ) };

    ghost view = { λ n. listed n.places.entries };

    ghost invariant = { λ n. IsNumbered n.places.entries };
}

impl Names {
    /// No name.
    pub fn new(alloc: Global) -> Names
        ensures { result ≡ [] }
    {
        Names {
            places: BTreeMap::new(alloc),
        }
    }

    /// The place of a name, from 0.
    pub fn place(&self, name: &Text) -> Option<usize>
        ensures { result ≡ position (λ other. bytes_eq other name.now) self.now }
    {
        self.places.get(name.get()).copied()
    }

    /// One more name at the end, which is not there yet; where memory is refused, nothing changes.
    pub fn push(&mut self, alloc: Global, name: &Text) -> Result<(), NoMemory>
        requires { position (λ other. bytes_eq other name.now) self.old ≡ None }
        ensures ok { OnOk result (self.new ≡ self.old ++ name.now ∷ []) }
        ensures err { OnErr result (self.new ≡ self.old) }
    {
        let Ok(key) = String::from_str(alloc, name.get()) else {
            return Err(NoMemory);
        };
        let place = self.places.len();
        let Ok(_) = self.places.insert(key, place) else {
            return Err(NoMemory);
        };
        Ok(())
    }
}
