//! The heads of a script.
ghost use Rattle.std.specs.Prelude.{◌≡◌, ◌<◌, ◌≤◌, length, slice_get, MatchOption, IfOk, IsSomeAnd, Some, None, [], false};
ghost use Rattle.std.specs.List.{AllZip, list_any};
ghost use Rattle.od_extraction.specs.Weight.{weight, most_weight};
ghost use Rattle.od_heads.specs.Places.{says};
ghost use Rattle.od_heads.specs.Ready.{IsReady};
ghost use Rattle.od_matching.specs.Rounds.Standing.{standing};
ghost use Rattle.od_pattern.specs.declared.grammar.Grammar.{Grammar};
ghost use Rattle.od_pattern.specs.declared.grammar.Head.{Head as Named};
ghost use Rattle.od_session.specs.Grammars.{grammar_of};
ghost use Rattle.od_session.specs.Parts.{head_of, is_known};
ghost use Rattle.od_text.specs.Lists.{Each};

use crate::places::{Places, place_of, places_of};
use crate::ready::{Ready, resume_at};
use od_extraction::mention::Mention;
use od_io::Runner;
use od_pattern::grammar::{GrammarKind, Head};
use od_rounds::Session;
use od_segment::View;
use od_session::object::SessionState;
use od_text::list::List;
use od_text::text::{NoMemory, Text};
use std::alloc::Global;
use std::marker::Model;

/// The heads of a script in their order, with their grammars made ready. One is found in maps: by
/// its name, and by its kind and text.
#[derive(Drop)]
pub struct Heads<R: Runner> {
    heads: List<Head>,
    /// The grammar of each head.
    ready: Vec<Ready<R>>,
    places: Places,
}

impl<R: Runner> Model for Heads<R> {
    ghost use Rattle.std.specs.Prelude.{List};
    ghost use Rattle.std.specs.List.{AllZip};
    ghost use Rattle.od_pattern.specs.declared.grammar.Head.{Head};
    ghost use Rattle.od_heads.specs.Places.{IsPlaced};
    ghost use Rattle.od_heads.specs.Ready.{IsReady};

    ghost Value = { List Head };

    ghost view = { λ h. h.heads };

    ghost invariant = { λ h.
        IsPlaced h.heads h.places × AllZip (IsReady R.pattern) h.heads h.ready.items };
}

impl<R: Runner + Drop> Heads<R> {
    /// Heads with their grammars.
    pub(crate) fn new(
        alloc: Global,
        heads: List<Head>,
        ready: List<Ready<R>>,
    ) -> Result<Heads<R>, NoMemory>
        requires { AllZip (IsReady R.pattern) heads ready }
        ensures { IfOk result (λ made. made ≡ heads) }
    {
        let places = places_of(alloc, heads.get())?;
        Ok(Heads {
            heads,
            ready: ready.into_vec(),
            places,
        })
    }
}

impl<R: Runner> Heads<R> {
    /// The place of the first head of a name, from 0.
    pub fn place(&self, name: &Text) -> Option<usize>
        ensures { MatchOption result (head_of name.now self.now ≡ None)
            (λ i. (h : Named) × (slice_get self.now i ≡ Some h)
            × (head_of name.now self.now ≡ Some h)) }
    {
        place_of(&self.places.names, name)
    }

    /// The head at a place.
    pub fn head(&self, place: usize) -> &Head
        requires { place < length self.now }
        ensures { slice_get self.now place ≡ Some result.now }
    {
        &self.heads.get()[place]
    }

    /// The place of the first head of a kind and text, from 0, where there is one.
    pub fn place_of(&self, kind: GrammarKind, text: &Text) -> Option<usize>
        ensures { MatchOption result (list_any (says kind text.now) self.now ≡ false)
            (λ i. (h : Named) × (slice_get self.now i ≡ Some h)
            × (h.kind ≡ kind) × (h.text ≡ text.now)) }
    {
        match kind {
            GrammarKind::RuleFile => place_of(&self.places.rule_files, text),
            GrammarKind::Query => place_of(&self.places.queries, text),
        }
    }

    /// Whether a session's grammar is one of these.
    pub fn is_known(&self, state: &SessionState) -> bool
        ensures { result ≡ is_known self.now state.now }
    {
        self.place_of(state.kind, &state.text).is_some()
    }

    /// A session that runs the grammar of a head over a view, with no round yet.
    ///
    /// # Errors
    ///
    /// `NoMemory` where memory is refused.
    pub fn start(
        &mut self,
        alloc: Global,
        place: usize,
        view: View,
        limit: u32,
    ) -> Result<Session, NoMemory>
        requires { place < length self.old }
        ensures runs { IfOk result (λ s. IsSomeAnd (slice_get self.old place)
            (λ head. (grammar : Grammar) × (grammar_of head.kind head.text ≡ Some grammar)
            × (s ≡ record {
              rules = grammar.rules;
              seen = view;
              limit = limit;
              at = standing [];
            }))) }
        ensures same { self.new ≡ self.old }
    {
        self.resume(alloc, place, view, limit, &[])
    }

    /// A session that runs the grammar of a head over a view, behind rounds that added these lists.
    /// No sentence is opened, and no round is run.
    ///
    /// # Errors
    ///
    /// `NoMemory` where memory is refused.
    pub fn resume(
        &mut self,
        alloc: Global,
        place: usize,
        view: View,
        limit: u32,
        lists: &[List<Mention>],
    ) -> Result<Session, NoMemory>
        requires there { place < length self.old }
        requires few { length lists.now ≤ limit }
        requires light { Each (λ list. weight list ≤ most_weight) lists.now }
        ensures runs { IfOk result (λ s. IsSomeAnd (slice_get self.old place)
            (λ head. (grammar : Grammar) × (grammar_of head.kind head.text ≡ Some grammar)
            × (s ≡ record {
              rules = grammar.rules;
              seen = view;
              limit = limit;
              at = standing lists.now;
            }))) }
        ensures same { self.new ≡ self.old }
    {
        resume_at(alloc, &mut self.ready, place, view, limit, lists)
    }
}
