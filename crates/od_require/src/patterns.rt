//! Needs of surface patterns and paths.
ghost use Rattle.std.specs.Prelude.{◌≡◌, map, IfOk};
ghost use Rattle.od_need.specs.Needs.{need_label, need_path, need_surface, need_turns};

use crate::constraints::need_of_constraint;
use od_need::need::Need;
use od_pattern::path::Path;
use od_pattern::pattern::{Surface, Value};
use od_text::list::List;
use od_text::text::{Copied, NoMemory};
use std::alloc::Global;

/// The need of a repeat, whose body has this one: nothing where it may have no turn.
fn need_of_turns(least: u32, body: Need) -> Need
    ensures { result ≡ need_turns least body }
{
    if least == 0 { Need::True } else { body }
}

/// The need of a surface pattern.
#[cycle(surface)]
#[tactic(auto, using(crate::proofs::Built::need_seq, crate::proofs::Built::need_alt, crate::proofs::Built::need_repeat, crate::proofs::Built::need_capture), unfolding(od_need::specs::Needs::need_surface))]
pub(crate) fn need_of_surface(alloc: Global, surface: &Surface) -> Result<Need, NoMemory>
    ensures { IfOk result (λ need. need ≡ need_surface surface.now) }
{
    match surface {
        Surface::Token(constraint) => need_of_constraint(alloc, constraint),
        Surface::Label(name) => Ok(Need::Label(name.copy(alloc)?)),
        Surface::Look {
            ahead: _,
            positive,
            constraint,
        } => {
            if *positive {
                need_of_constraint(alloc, constraint)
            } else {
                Ok(Need::True)
            }
        }
        Surface::First | Surface::Last => Ok(Need::True),
        Surface::Seq(parts) => Ok(Need::And(need_of_surfaces(alloc, parts.get())?)),
        Surface::Alt(parts) => Ok(Need::Or(need_of_surfaces(alloc, parts.get())?)),
        Surface::Repeat(body, turns) => {
            let need = need_of_surface(alloc, body.get())?;
            Ok(need_of_turns(turns.least, need))
        }
        Surface::Capture(_, body) => {
            let need = need_of_surface(alloc, body.get())?;
            Ok(need)
        }
    }
}

/// The needs of surface patterns, one after another.
#[cycle(surface)]
fn need_of_surfaces(alloc: Global, parts: &[Surface]) -> Result<List<Need>, NoMemory>
    ensures { IfOk result (λ needs. needs ≡ map need_surface parts.now) }
{
    let mut needs = List::new(alloc);
    for part in parts {
        needs.push(need_of_surface(alloc, part)?)?;
    }
    Ok(needs)
}

/// The need of a step: nothing where any label will do.
fn need_of_label(alloc: Global, value: &Option<Value>) -> Result<Need, NoMemory>
    ensures { IfOk result (λ need. need ≡ need_label value.now) }
{
    match value {
        Some(value) => Ok(Need::Edge(value.copy(alloc)?)),
        None => Ok(Need::True),
    }
}

/// The need of a path.
#[cycle(path)]
#[tactic(auto, using(crate::proofs::Built::need_path_seq, crate::proofs::Built::need_path_alt, crate::proofs::Built::need_path_repeat), unfolding(od_need::specs::Needs::need_path))]
pub(crate) fn need_of_path(alloc: Global, path: &Path) -> Result<Need, NoMemory>
    ensures { IfOk result (λ need. need ≡ need_path path.now) }
{
    match path {
        Path::Along(value) | Path::Against(value) => need_of_label(alloc, value),
        Path::Filter(constraint) => need_of_constraint(alloc, constraint),
        Path::Seq(parts) => Ok(Need::And(need_of_paths(alloc, parts.get())?)),
        Path::Alt(parts) => Ok(Need::Or(need_of_paths(alloc, parts.get())?)),
        Path::Repeat(body, least, _) => {
            let need = need_of_path(alloc, body.get())?;
            Ok(need_of_turns(*least, need))
        }
    }
}

/// The needs of paths, one after another.
#[cycle(path)]
fn need_of_paths(alloc: Global, parts: &[Path]) -> Result<List<Need>, NoMemory>
    ensures { IfOk result (λ needs. needs ≡ map need_path parts.now) }
{
    let mut needs = List::new(alloc);
    for part in parts {
        needs.push(need_of_path(alloc, part)?)?;
    }
    Ok(needs)
}
