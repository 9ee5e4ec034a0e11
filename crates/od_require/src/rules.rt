//! Needs of rules.
ghost use Rattle.std.specs.Prelude.{◌≡◌, ◌++◌, map, IfOk, OnOk};
ghost use Rattle.std.specs.List.{flat_map};
ghost use Rattle.od_need.specs.Needs.{need_argument, need_candidate, need_event, need_hop, need_of, need_part};

use crate::constraints::both;
use crate::patterns::{need_of_path, need_of_surface};
use od_need::need::Need;
use od_pattern::rule::{Argument, Body, EventRule, Hop, HopPart, Many, Rule};
use od_text::list::List;
use od_text::text::{Copied, NoMemory, Text};
use std::alloc::Global;

/// The needs of the further parts of a hop, each of its path and then of its surface.
#[tactic(auto, using(crate::proofs::Parts::taken_more))]
fn push_parts(alloc: Global, parts: &[HopPart], needs: &mut List<Need>) -> Result<(), NoMemory>
    ensures { OnOk result (needs.new ≡ needs.old ++ flat_map need_part parts.now) }
{
    for part in parts {
        needs.push(need_of_path(alloc, &part.path)?)?;
        needs.push(need_of_surface(alloc, &part.surface)?)?;
    }
    Ok(())
}

/// The need of a hop: of its one part, or of all parts and the steps between them.
fn need_of_parts(alloc: Global, hop: &Hop) -> Result<Need, NoMemory>
    ensures { IfOk result (λ need. need ≡ need_hop hop.now) }
{
    let first = need_of_surface(alloc, &hop.first)?;
    if hop.rest.len() == 0 {
        return Ok(first);
    }
    let mut needs = List::new(alloc);
    needs.push(first)?;
    push_parts(alloc, hop.rest.get(), &mut needs)?;
    Ok(Need::And(needs))
}

/// The need of a candidate, whose path has this one: of a span also a mention with the label.
fn need_of_candidate(alloc: Global, label: &Option<Text>, path: Need) -> Result<Need, NoMemory>
    ensures { IfOk result (λ need. need ≡ need_candidate label.now path) }
{
    match label {
        Some(label) => {
            let label = Need::Label(label.copy(alloc)?);
            Ok(Need::And(both(alloc, path, label)?))
        }
        None => Ok(path),
    }
}

/// The need of an argument: nothing where there may be no candidate.
fn need_of_one(alloc: Global, argument: &Argument) -> Result<Need, NoMemory>
    ensures { IfOk result (λ need. need ≡ need_argument argument.now) }
{
    match argument.many {
        Many::Optional | Many::All => Ok(Need::True),
        Many::One | Many::AllOne => {
            let path = need_of_path(alloc, &argument.path)?;
            let need = need_of_candidate(alloc, &argument.label, path)?;
            Ok(need)
        }
    }
}

/// The needs of arguments, one after another.
#[tactic(auto, using(crate::proofs::Parts::mapped_more))]
fn push_arguments(
    alloc: Global,
    arguments: &[Argument],
    needs: &mut List<Need>,
) -> Result<(), NoMemory>
    ensures { OnOk result (needs.new ≡ needs.old ++ map need_argument arguments.now) }
{
    for argument in arguments {
        needs.push(need_of_one(alloc, argument)?)?;
    }
    Ok(())
}

/// The need of an event rule: of its trigger and of each argument.
fn need_of_trigger(alloc: Global, event: &EventRule) -> Result<Need, NoMemory>
    ensures { IfOk result (λ need. need ≡ need_event event.now) }
{
    let mut needs = List::new(alloc);
    needs.push(need_of_surface(alloc, &event.trigger)?)?;
    push_arguments(alloc, event.arguments.get(), &mut needs)?;
    Ok(Need::And(needs))
}

/// What a sentence, and the mentions on it, must have so that a rule finds anything there. Each
/// constraint of the rule is read without a call for its depth.
///
/// # Errors
///
/// `NoMemory` where memory is refused.
pub fn needs(alloc: Global, rule: &Rule) -> Result<Need, NoMemory>
    ensures { IfOk result (λ need. need ≡ need_of rule.now) }
{
    match &rule.body {
        Body::Basic(hop) => need_of_parts(alloc, hop),
        Body::Event(event) => need_of_trigger(alloc, event),
    }
}
