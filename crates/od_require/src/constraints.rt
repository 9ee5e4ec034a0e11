//! Needs of constraints, which may be thousands deep to the left: no call is made for that depth.
ghost use Rattle.std.specs.Prelude.{◌≡◌, ◌+◌, ◌<◌, ◌++◌, [], ◌∷◌, IfOk, OnOk};
ghost use Rattle.od_need.specs.Needs.{need_constraint, need_value};
ghost use Rattle.od_pattern.specs.Walk.{parts_in};
ghost use Rattle.od_require.specs.Walk.{around, cost, plugged, total};

use od_need::need::Need;
use od_pattern::pattern::{Constraint, Field, Value};
use od_text::list::List;
use od_text::text::{Copied, NoMemory};
use std::alloc::Global;

/// What stands around the constraint whose need is being made.
#[derive(Drop)]
pub(crate) enum Frame<'a> {
    /// The need of the right operand is still to be made.
    AndRight(&'a Constraint),
    OrRight(&'a Constraint),
    /// The need of the left operand was made.
    AndLeft(Need),
    OrLeft(Need),
}

fn push<'a>(frames: &mut Vec<Frame<'a>>, frame: Frame<'a>) -> Result<(), NoMemory>
    ensures { OnOk result (frames.new.items ≡ frames.old.items ++ frame.entry ∷ []) }
{
    match frames.push(frame) {
        Ok(()) => Ok(()),
        Err(_) => Err(NoMemory),
    }
}

/// The need of a value in a field.
fn need_of_value(alloc: Global, field: Field, value: &Value) -> Result<Need, NoMemory>
    ensures { IfOk result (λ need. need ≡ need_value field value.now) }
{
    match value {
        Value::Plain(text) => Ok(Need::Term(field, text.copy(alloc)?)),
        Value::Regex(expression) => Ok(Need::Regex(field, expression.copy(alloc)?)),
    }
}

/// Two needs in a list.
pub(crate) fn both(alloc: Global, left: Need, right: Need) -> Result<List<Need>, NoMemory>
    ensures { IfOk result (λ needs. needs ≡ left ∷ right ∷ []) }
{
    let mut needs = List::new(alloc);
    needs.push(left)?;
    needs.push(right)?;
    Ok(needs)
}

/// The need of the leftmost part of a constraint; what stands around it goes onto the frames.
#[tactic(auto, using(crate::proofs::Walks::plugged_more, crate::proofs::Walks::total_more), unfolding(od_need::specs::Needs::need_constraint))]
fn leftmost<'a>(
    alloc: Global,
    frames: &mut Vec<Frame<'a>>,
    whole: &'a Constraint,
) -> Result<Need, NoMemory>
    ensures plugged { IfOk result (λ need.
        plugged frames.new.items need ≡ plugged frames.old.items (need_constraint whole.now)) }
    ensures less { OnOk result
        (total frames.new.items < total frames.old.items + parts_in whole.now) }
{
    let mut at = whole;
    loop {
        match at {
            Constraint::Any => return Ok(Need::True),
            Constraint::Is(field, value) => {
                let need = need_of_value(alloc, *field, value)?;
                return Ok(need);
            }
            Constraint::Not(_) => return Ok(Need::True),
            Constraint::And(left, right) => {
                push(frames, Frame::AndRight(right.get()))?;
                at = left.get();
            }
            Constraint::Or(left, right) => {
                push(frames, Frame::OrRight(right.get()))?;
                at = left.get();
            }
        }
    }
}

/// A frame around a need that was made; or the need of its right operand is begun.
#[tactic(auto, using(crate::proofs::Walks::plugged_more, crate::proofs::Walks::total_more))]
fn wrapped<'a>(
    alloc: Global,
    frames: &mut Vec<Frame<'a>>,
    frame: Frame<'a>,
    made: Need,
) -> Result<Need, NoMemory>
    ensures plugged { IfOk result (λ need.
        plugged frames.new.items need ≡ plugged frames.old.items (around frame.entry made)) }
    ensures less { OnOk result
        (total frames.new.items < total frames.old.items + cost frame.entry) }
{
    match frame {
        Frame::AndRight(right) => {
            push(frames, Frame::AndLeft(made))?;
            leftmost(alloc, frames, right)
        }
        Frame::OrRight(right) => {
            push(frames, Frame::OrLeft(made))?;
            leftmost(alloc, frames, right)
        }
        Frame::AndLeft(left) => Ok(Need::And(both(alloc, left, made)?)),
        Frame::OrLeft(left) => Ok(Need::Or(both(alloc, left, made)?)),
    }
}

/// The need of a constraint.
#[tactic(auto, using(crate::proofs::Walks::plugged_more, crate::proofs::Walks::total_more))]
pub(crate) fn need_of_constraint(alloc: Global, constraint: &Constraint) -> Result<Need, NoMemory>
    ensures { IfOk result (λ need. need ≡ need_constraint constraint.now) }
{
    let mut frames = Vec::new(alloc);
    let mut need = leftmost(alloc, &mut frames, constraint)?;
    while let Some(frame) = frames.pop() {
        need = wrapped(alloc, &mut frames, frame, need)?;
    }
    Ok(need)
}
