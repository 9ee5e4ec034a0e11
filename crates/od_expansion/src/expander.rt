//! The variables of a rule file, and the expansion of texts in which they occur.
ghost use Rattle.std.specs.Prelude.{◌≡◌};
ghost use Rattle.od_expansion.specs.Faults.{IsFaultOf};

use crate::state::State;
use crate::walk::{Stop, expand_text};
use od_names::names::Names;
use od_rule_text::rule_file::KeyText;
use od_text::list::List;
use od_text::text::{NoMemory, Text};
use std::alloc::Global;
use std::marker::Model;

/// Why a text has no expansion.
#[derive(Debug, Drop)]
pub enum ExpansionFault {
    /// A name is reached that no variable has.
    UnknownVar,
    /// The first variable that is reached again within its own expansion.
    VarCycle { var: Text },
    /// The expansion has more bytes than a pattern may have.
    TooLong,
    /// Memory was refused.
    NoMemory,
}

/// The variables of a rule file. The expansion of each is remembered once it is known.
#[derive(Drop)]
pub struct Expander {
    vars: List<KeyText>,
    names: Names,
    states: Vec<State>,
}

impl Model for Expander {
    ghost use Rattle.std.specs.Prelude.{List};
    ghost use Rattle.od_rule_text.specs.declared.rule_file.KeyText.{KeyText};
    ghost use Rattle.od_expansion.specs.Rest.{IsAtRest};

    ghost Value = { List KeyText };

    ghost view = { λ e. e.vars };

    ghost invariant = { λ e. IsAtRest e.vars e.names e.states.items };
}

/// The fault that a walk ended with.
fn fault_of(stop: Stop) -> ExpansionFault
    ensures { IsFaultOf stop result }
{
    match stop {
        Stop::Unknown => ExpansionFault::UnknownVar,
        Stop::Cycle(var) => ExpansionFault::VarCycle { var },
        Stop::NoMemory => ExpansionFault::NoMemory,
    }
}

impl Expander {
    ghost use Rattle.std.specs.Prelude.{◌≡◌, ◌≤◌, Ok, IfOk, IfErr, length};
    ghost use Rattle.od_rule_text.specs.Expansion.{expanded};
    ghost use Rattle.od_rule_text.specs.declared.limits.TheConstants.{PATTERN_BYTES};
    ghost use Rattle.od_expansion.specs.Rest.{AreDistinct};
    ghost use Rattle.od_expansion.specs.Faults.{IsExpansionFault};

    /// With these variables, whose names differ.
    pub fn new(alloc: Global, vars: List<KeyText>) -> Result<Expander, NoMemory>
        requires { AreDistinct vars }
        ensures { IfOk result (λ expander. expander ≡ vars) }
    {
        let mut names = Names::new(alloc);
        let mut states = Vec::new(alloc);
        for v in vars.get() {
            names.push(alloc, &v.key)?;
            states.push(State::Unseen)?;
        }
        Ok(Expander {
            vars,
            names,
            states,
        })
    }

    /// A text with its variables replaced, of at most as many bytes as a pattern may have; or the first
    /// variable that is unknown or reached again within its own expansion, in the order of expansion; or
    /// that the expansion is too long.
    ///
    /// The texts of all variables are gone through once, however often they occur and in whatever texts.
    pub fn expand(&mut self, alloc: Global, text: &Text) -> Result<Text, ExpansionFault>
        ensures value { IfOk result (λ t. expanded self.old text.now ≡ Ok t) }
        ensures short { IfOk result (λ t. length t ≤ PATTERN_BYTES) }
        ensures fault { IfErr result (IsExpansionFault self.old text.now) }
        ensures same { self.new ≡ self.old }
    {
        match expand_text(alloc, self.vars.get(), &self.names, &mut self.states, text) {
            Ok(expansion) => match expansion.into_text() {
                Some(text) => Ok(text),
                None => Err(ExpansionFault::TooLong),
            },
            Err(stop) => Err(fault_of(stop)),
        }
    }
}
