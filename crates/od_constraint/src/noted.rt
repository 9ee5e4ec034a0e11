//! Which regular expressions were run over the texts of which fields.
ghost use Rattle.std.specs.Prelude.{◌≡◌, ◌<◌, ℕ, List, IfOk, IfSome, Some, length, slice_get};
ghost use Rattle.od_index.specs.Terms.{Term};
ghost use Rattle.od_pattern.specs.declared.pattern.Value.TheVariants as value;
ghost use Rattle.od_constraint.specs.declared.hits.Hits.{Hits as SomeHits};
ghost use Rattle.od_constraint.specs.Hits.{HasHits};
ghost use Rattle.od_constraint.specs.Noted.{AreNoted, noted_in, with_noted};

use od_pattern::pattern::Field;
use od_text::text::NoMemory;
use std::alloc::Global;

/// Where the hits of a regular expression stand, for each field over whose texts it was run.
#[derive(Clone, Copy, Debug)]
pub(crate) struct Noted {
    pub(crate) word: Option<usize>,
    pub(crate) norm: Option<usize>,
    pub(crate) lemma: Option<usize>,
    pub(crate) upos: Option<usize>,
    pub(crate) tag: Option<usize>,
    pub(crate) entity: Option<usize>,
    pub(crate) chunk: Option<usize>,
    pub(crate) incoming: Option<usize>,
}

/// One that was not run yet.
const NOWHERE: Noted = Noted {
    word: None,
    norm: None,
    lemma: None,
    upos: None,
    tag: None,
    entity: None,
    chunk: None,
    incoming: None,
};

impl Noted {
    /// Where the hits over the texts of a field stand. Labels are asked as incoming ones alone.
    fn place(self, field: Field) -> Option<usize>
        ensures { result ≡ noted_in field self }
    {
        match field {
            Field::Word => self.word,
            Field::Norm => self.norm,
            Field::Lemma => self.lemma,
            Field::Upos => self.upos,
            Field::Tag => self.tag,
            Field::Entity => self.entity,
            Field::Chunk => self.chunk,
            Field::Incoming => self.incoming,
            Field::Outgoing => None,
        }
    }

    /// The same, and the hits over the texts of a field stand at a place.
    fn with(self, field: Field, place: usize) -> Noted
        ensures { result ≡ with_noted field place self }
    {
        let there = Some(place);
        match field {
            Field::Word => Noted {
                word: there,
                ..self
            },
            Field::Norm => Noted {
                norm: there,
                ..self
            },
            Field::Lemma => Noted {
                lemma: there,
                ..self
            },
            Field::Upos => Noted {
                upos: there,
                ..self
            },
            Field::Tag => Noted { tag: there, ..self },
            Field::Entity => Noted {
                entity: there,
                ..self
            },
            Field::Chunk => Noted {
                chunk: there,
                ..self
            },
            Field::Incoming => Noted {
                incoming: there,
                ..self
            },
            Field::Outgoing => self,
        }
    }
}

/// For each of `len` expressions that it was not run yet.
pub(crate) fn none_noted(alloc: Global, len: usize) -> Result<Vec<Noted>, NoMemory>
    ensures { IfOk result (λ noted. (table : List Term) (all : List SomeHits)
        (expressions : List (List ℕ)) → length expressions ≡ len
        → AreNoted table all expressions noted.items) }
{
    let noted = vec![in alloc; NOWHERE; len]?;
    Ok(noted)
}

/// What is noted at a place.
fn noted_at(noted: &[Noted], place: usize) -> Option<Noted>
    ensures { result ≡ slice_get noted.now place }
{
    noted.get(place).copied()
}

/// What is noted at a place that there is.
fn noted_there(noted: &[Noted], place: usize) -> Noted
    requires { place < length noted.now }
    ensures { slice_get noted.now place ≡ Some result }
{
    noted[place]
}

/// Where the hits of an expression stand, if it was run over the texts of a field.
pub(crate) fn noted_place(noted: &[Noted], expression: usize, field: Field) -> Option<usize>
    ensures { (table : List Term) (all : List SomeHits) (expressions : List (List ℕ)) (text : List ℕ)
        → AreNoted table all expressions noted.now
        → slice_get expressions expression ≡ Some text
        → IfSome result (HasHits table all field (value.Regex text)) }
{
    match noted_at(noted, expression) {
        Some(one) => one.place(field),
        None => None,
    }
}

/// An expression was run over the texts of a field, and its hits stand at a place.
pub(crate) fn note(noted: &mut Vec<Noted>, expression: usize, field: Field, place: usize)
    ensures { (table : List Term) (all : List SomeHits) (expressions : List (List ℕ)) (text : List ℕ)
        → AreNoted table all expressions noted.old.items
        → slice_get expressions expression ≡ Some text
        → HasHits table all field (value.Regex text) place
        → AreNoted table all expressions noted.new.items }
{
    if expression < noted.len() {
        let one = noted_there(noted.as_slice(), expression);
        noted[expression] = one.with(field, place);
    }
}
