//! What a rule asks, in the order of its text.
ghost use Rattle.std.specs.Prelude.{◌≡◌, ◌++◌, ◌∷◌, [], IfOk, OnOk};
ghost use Rattle.std.specs.List.{flat_map};
ghost use Rattle.od_asked.specs.Asked.{asked_argument, asked_body, asked_label, asked_part, asked_path, asked_rule, asked_surface};
ghost use Rattle.od_columns.specs.Lent.{all_lent, lent};

use od_pattern::path::Path;
use od_pattern::pattern::{Constraint, Surface, Value};
use od_pattern::rule::{Argument, Body, EventRule, Hop, HopPart, Rule};
use od_text::text::NoMemory;
use std::alloc::Global;

/// One thing that a rule asks.
#[derive(Clone, Copy, Drop)]
pub enum Asking<'a> {
    /// Whether the constraint holds, at each token.
    AtTokens(&'a Constraint),
    /// Whether the label fits the value, at each edge.
    AtEdges(&'a Value),
}

/// One thing more.
fn push<'a>(next: Asking<'a>, asked: &mut Vec<Asking<'a>>) -> Result<(), NoMemory>
    ensures { OnOk result (all_lent asked.new.items ≡ all_lent asked.old.items ++ lent next.entry ∷ []) }
{
    asked.push(next)?;
    Ok(())
}

/// What a surface pattern asks.
#[cycle(surface)]
#[tactic(auto, using(od_asked::proofs::Built::asked_seq, od_asked::proofs::Built::asked_alt, od_asked::proofs::Built::asked_repeat, od_asked::proofs::Built::asked_capture), unfolding(od_asked::specs::Asked::asked_surface))]
pub fn push_surface<'a>(surface: &'a Surface, asked: &mut Vec<Asking<'a>>) -> Result<(), NoMemory>
    ensures { OnOk result
        (all_lent asked.new.items ≡ all_lent asked.old.items ++ asked_surface surface.now) }
{
    match surface {
        Surface::Token(constraint) | Surface::Look { constraint, .. } => {
            push(Asking::AtTokens(constraint), asked)
        }
        Surface::Label(_) | Surface::First | Surface::Last => Ok(()),
        Surface::Seq(parts) | Surface::Alt(parts) => push_surfaces(parts.get(), asked),
        Surface::Repeat(body, _) => {
            push_surface(body.get(), asked)?;
            Ok(())
        }
        Surface::Capture(_, body) => {
            push_surface(body.get(), asked)?;
            Ok(())
        }
    }
}

/// What surface patterns ask, one after another.
#[cycle(surface)]
#[tactic(auto, using(crate::proofs::Parts::taken_more))]
fn push_surfaces<'a>(parts: &'a [Surface], asked: &mut Vec<Asking<'a>>) -> Result<(), NoMemory>
    ensures { OnOk result
        (all_lent asked.new.items ≡ all_lent asked.old.items ++ flat_map asked_surface parts.now) }
{
    for part in parts {
        push_surface(part, asked)?;
    }
    Ok(())
}

/// What a step asks of labels: nothing where any will do.
fn push_label<'a>(value: &'a Option<Value>, asked: &mut Vec<Asking<'a>>) -> Result<(), NoMemory>
    ensures { OnOk result
        (all_lent asked.new.items ≡ all_lent asked.old.items ++ asked_label value.now) }
{
    match value {
        Some(value) => push(Asking::AtEdges(value), asked),
        None => Ok(()),
    }
}

/// What a path asks.
#[cycle(path)]
#[tactic(auto, using(od_asked::proofs::Built::asked_path_seq, od_asked::proofs::Built::asked_path_alt, od_asked::proofs::Built::asked_path_repeat), unfolding(od_asked::specs::Asked::asked_path))]
pub fn push_path<'a>(path: &'a Path, asked: &mut Vec<Asking<'a>>) -> Result<(), NoMemory>
    ensures { OnOk result
        (all_lent asked.new.items ≡ all_lent asked.old.items ++ asked_path path.now) }
{
    match path {
        Path::Along(value) | Path::Against(value) => push_label(value, asked),
        Path::Filter(constraint) => push(Asking::AtTokens(constraint), asked),
        Path::Seq(parts) | Path::Alt(parts) => push_paths(parts.get(), asked),
        Path::Repeat(body, _, _) => {
            push_path(body.get(), asked)?;
            Ok(())
        }
    }
}

/// What paths ask, one after another.
#[cycle(path)]
#[tactic(auto, using(crate::proofs::Parts::taken_more))]
fn push_paths<'a>(parts: &'a [Path], asked: &mut Vec<Asking<'a>>) -> Result<(), NoMemory>
    ensures { OnOk result
        (all_lent asked.new.items ≡ all_lent asked.old.items ++ flat_map asked_path parts.now) }
{
    for part in parts {
        push_path(part, asked)?;
    }
    Ok(())
}

/// What the further parts of a hop ask, each its path and then its surface.
#[tactic(auto, using(crate::proofs::Parts::taken_more))]
fn push_parts<'a>(parts: &'a [HopPart], asked: &mut Vec<Asking<'a>>) -> Result<(), NoMemory>
    ensures { OnOk result
        (all_lent asked.new.items ≡ all_lent asked.old.items ++ flat_map asked_part parts.now) }
{
    for part in parts {
        push_path(&part.path, asked)?;
        push_surface(&part.surface, asked)?;
    }
    Ok(())
}

/// What arguments ask.
#[tactic(auto, using(crate::proofs::Parts::taken_more))]
fn push_arguments<'a>(
    arguments: &'a [Argument],
    asked: &mut Vec<Asking<'a>>,
) -> Result<(), NoMemory>
    ensures { OnOk result (all_lent asked.new.items
        ≡ all_lent asked.old.items ++ flat_map asked_argument arguments.now) }
{
    for argument in arguments {
        push_path(&argument.path, asked)?;
    }
    Ok(())
}

/// What a rule asks, in the order of its text: one entry for each constraint, and for each value of
/// a step's label. It copies none of them.
///
/// # Errors
///
/// `NoMemory` where memory is refused.
pub fn asked_of<'a>(alloc: Global, rule: &'a Rule) -> Result<Vec<Asking<'a>>, NoMemory>
    ensures { IfOk result (λ asked. all_lent asked.items ≡ asked_rule rule.now) }
{
    let mut asked = Vec::new(alloc);
    match &rule.body {
        Body::Basic(Hop { first, rest }) => {
            push_surface(first, &mut asked)?;
            push_parts(rest.get(), &mut asked)?;
        }
        Body::Event(EventRule { trigger, arguments }) => {
            push_surface(trigger, &mut asked)?;
            push_arguments(arguments.get(), &mut asked)?;
        }
    }
    Ok(asked)
}
