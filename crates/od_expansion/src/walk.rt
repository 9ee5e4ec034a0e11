//! The walk through a text and the texts of the variables that it reaches.
ghost use Rattle.std.specs.Prelude.{◌≡◌, ℕ, ◌∷◌, Some, List as Seq, IfOk, IfErr, OnOk, slice_get};
ghost use Rattle.od_rule_text.specs.Expansion.{Piece, Misfit, occurs, pieces};
ghost use Rattle.od_expansion.specs.Places.{Fails};
ghost use Rattle.od_expansion.specs.States.{place_of};
ghost use Rattle.od_expansion.specs.Walks.{IsReady, KeepsStates, IsExpansion, AppendsVariable, IsStop};
ghost use Rattle.od_expansion.specs.declared.state.State.TheVariants.{Unseen};

use crate::bounded::Bounded;
use crate::name::next_occurrence;
use crate::state::State;
use od_names::names::Names;
use od_rule_text::rule_file::KeyText;
use od_text::text::{Copied, NoMemory, Text};
use std::alloc::Global;

/// Why a walk ends early.
#[derive(Debug, Drop)]
pub(crate) enum Stop {
    /// No variable has a name that was reached.
    Unknown,
    /// A variable is reached within its own expansion.
    Cycle(Text),
    /// Memory was refused.
    NoMemory,
}

impl From<NoMemory> for Stop {
    ghost use Rattle.od_expansion.specs.declared.walk.Stop.TheVariants as stop;

    ghost from_gives = { λ _ result. result ≡ stop.NoMemory };

    fn from(_refused: NoMemory) -> Stop {
        Stop::NoMemory
    }
}

/// The expansion of a text.
#[cycle(walk)]
pub(crate) fn expand_text(
    alloc: Global,
    vars: &[KeyText],
    names: &Names,
    states: &mut Vec<State>,
    text: &Text,
) -> Result<Bounded, Stop>
    requires { IsReady vars.now names.now states.old.items }
    ensures value { IfOk result (IsExpansion vars.now text.now) }
    ensures fails { IfErr result (IsStop
        (Fails vars.now names.now states.old.items (pieces 0 text.now))) }
    ensures states { KeepsStates vars.now states.old.items states.new.items }
{
    let mut out = Bounded::new(alloc);
    let mut rest = text.get();
    loop {
        let Some((name, after)) = next_occurrence(rest, &mut out)? else {
            return Ok(out);
        };
        let variable = Text::from_str(alloc, name)?;
        match append_variable(alloc, vars, names, states, &variable, &mut out) {
            Ok(()) => rest = after,
            Err(stop) => return Err(stop),
        }
    }
}

/// The expansion of a variable at the end of a text.
#[cycle(walk)]
fn append_variable(
    alloc: Global,
    vars: &[KeyText],
    names: &Names,
    states: &mut Vec<State>,
    name: &Text,
    out: &mut Bounded,
) -> Result<(), Stop>
    requires { IsReady vars.now names.now states.old.items }
    ensures value { OnOk result (AppendsVariable vars.now name.now out.old out.new) }
    ensures fails { IfErr result (IsStop (λ misfit. (more : Seq Piece) →
        Fails vars.now names.now states.old.items (occurs name.now ∷ more) misfit)) }
    ensures states { KeepsStates vars.now states.old.items states.new.items }
{
    let Some(place) = names.place(name) else {
        return Err(Stop::Unknown);
    };
    match &states[place] {
        State::Open => Err(Stop::Cycle(name.copy(alloc)?)),
        State::Known(text) => {
            out.append(text)?;
            Ok(())
        }
        State::Unseen => append_unseen(alloc, vars, names, states, name, place, out),
    }
}

/// The expansion of a variable that was not met yet, at the end of a text.
#[cycle(walk)]
fn append_unseen(
    alloc: Global,
    vars: &[KeyText],
    names: &Names,
    states: &mut Vec<State>,
    name: &Text,
    place: usize,
    out: &mut Bounded,
) -> Result<(), Stop>
    requires ready { IsReady vars.now names.now states.old.items }
    requires there { place_of names.now name.now ≡ Some place }
    requires unseen { slice_get states.old.items place ≡ Some Unseen }
    ensures value { OnOk result (AppendsVariable vars.now name.now out.old out.new) }
    ensures fails { IfErr result (IsStop (λ misfit. (more : Seq Piece) →
        Fails vars.now names.now states.old.items (occurs name.now ∷ more) misfit)) }
    ensures states { KeepsStates vars.now states.old.items states.new.items }
{
    states[place] = State::Open;
    match expand_text(alloc, vars, names, states, &vars[place].value) {
        Ok(text) => {
            let appended = out.append(&text);
            states[place] = State::Known(text);
            appended?;
            Ok(())
        }
        Err(stop) => {
            states[place] = State::Unseen;
            Err(stop)
        }
    }
}
