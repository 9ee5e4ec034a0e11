//! The runners of a grammar.
ghost use Rattle.std.specs.Prelude.{◌≡◌, ◌<◌, ℕ, List, [], ◌∷◌, ◌++◌, Contains, Some, length, map, slice_get, IfOk, OnOk, OnErr};
ghost use Rattle.od_asked.specs.Texts.{regex_holds};
ghost use Rattle.od_constraint.specs.Runners.{patterns_of, AreOwn};

use crate::places::Places;
use od_io::Runner;
use od_text::text::{NoMemory, Text};
use std::alloc::Global;
use std::marker::Model;

/// Each regular expression of a grammar with its runner. An expression is found through a map.
#[derive(Drop)]
pub struct Runners<R> {
    pairs: Vec<(Text, R)>,
    // Those of the expressions among the pairs.
    places: Places,
    alloc: Global,
}

impl<R> Model for Runners<R> {
    ghost use Rattle.std.specs.Prelude.{ℕ, List};
    ghost use Rattle.std.specs.Coded.{coded×, coded_ℕ, coded_list};
    ghost use Rattle.od_constraint.specs.Places.{ArePlaces};
    ghost use Rattle.od_constraint.specs.Runners.{patterns_of};

    ghost Value = { List (List ℕ × R) };

    ghost coded = { coded_list (coded× (coded_list coded_ℕ) R.code) };

    ghost view = { λ r. r.pairs.items };

    ghost invariant = { λ r. ArePlaces r.places (patterns_of r.pairs.items) };
}

impl<R> Runners<R> {
    /// No expression.
    pub fn new(alloc: Global) -> Runners<R>
        ensures { result ≡ [] }
    {
        Runners {
            pairs: Vec::new(alloc),
            places: Places::new(alloc),
            alloc,
        }
    }

    /// The expressions with their runners.
    pub fn pairs(&self) -> &[(Text, R)]
        ensures { result.now ≡ self.now }
    {
        self.pairs.as_slice()
    }

    /// How many expressions there are.
    pub(crate) fn len(&self) -> usize
        ensures { result ≡ length (patterns_of self.now) }
    {
        self.pairs.len()
    }

    /// The place of an expression among the pairs.
    pub(crate) fn place(&self, expression: &Text) -> usize
        requires { Contains (patterns_of self.now) expression.now }
        ensures { slice_get (patterns_of self.now) result ≡ Some expression.now }
    {
        match self.places.find(expression) {
            Some(place) => place,
            None => unreachable!(),
        }
    }
}

impl<R: Drop> Runners<R> {
    /// One more expression at the end; where memory is refused, nothing changes.
    pub fn push(&mut self, pattern: Text, runner: R) -> Result<(), NoMemory>
        ensures ok { OnOk result (self.new ≡ self.old ++ (pattern, runner) ∷ []) }
        ensures err { OnErr result (self.new ≡ self.old) }
    {
        self.pairs.reserve(1)?;
        let len = self.pairs.len();
        self.places.push(self.alloc, &pattern, len)?;
        self.pairs.push_reserved((pattern, runner));
        Ok(())
    }
}

/// Runs the runner at a place over texts.
fn run_at<R: Runner>(
    alloc: Global,
    pairs: &mut [(Text, R)],
    place: usize,
    texts: &[Text],
) -> Result<Vec<bool>, NoMemory>
    requires own { AreOwn R.pattern pairs.old }
    requires there { place < length pairs.old }
    ensures truths { (expression : List ℕ)
        → slice_get (patterns_of pairs.old) place ≡ Some expression
        → IfOk result (λ truths. truths.items ≡ map (regex_holds expression) texts.now) }
    ensures own { AreOwn R.pattern pairs.new }
    ensures patterns { patterns_of pairs.new ≡ patterns_of pairs.old }
{
    pairs[place].1.all(alloc, texts)
}

impl<R: Runner> Runners<R> {
    /// Runs the runner of an expression over texts.
    pub(crate) fn run(
        &mut self,
        alloc: Global,
        expression: &Text,
        texts: &[Text],
    ) -> Result<Vec<bool>, NoMemory>
        requires own { AreOwn R.pattern self.old }
        requires has { Contains (patterns_of self.old) expression.now }
        ensures truths { IfOk result (λ truths.
            truths.items ≡ map (regex_holds expression.now) texts.now) }
        ensures own { AreOwn R.pattern self.new }
        ensures patterns { patterns_of self.new ≡ patterns_of self.old }
    {
        let place = self.place(expression);
        run_at(alloc, &mut self.pairs, place, texts)
    }
}
