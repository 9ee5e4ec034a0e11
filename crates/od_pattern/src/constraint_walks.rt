//! Copies and comparisons of constraints, which may be thousands deep to the left: no call is made for that depth.
ghost use Rattle.std.specs.Prelude.{◌≡◌, ◌↔◌, ◌+◌, ◌<◌, ◌++◌, [], ◌∷◌, IfOk, OnOk, IsTrue, MatchResult};
ghost use Rattle.od_pattern.specs.Walk.{plugged, around, cost, total, parts_in};
ghost use Rattle.od_pattern.specs.declared.pattern.Constraint.TheVariants as constraint;

use crate::pattern::{Constraint, Field, Value};
use od_text::text::{Copied, NoMemory};
use sqlite_items::Boxed;
use std::alloc::Global;

impl Value {
    /// Whether two values are both plain or both regular expressions, of the same text.
    pub fn same(&self, other: &Value) -> bool
        ensures { IsTrue result ↔ (self.now ≡ other.now) }
    {
        match self {
            Value::Plain(text) => match other {
                Value::Plain(twin) => text.same(twin),
                Value::Regex(_) => false,
            },
            Value::Regex(text) => match other {
                Value::Plain(_) => false,
                Value::Regex(twin) => text.same(twin),
            },
        }
    }
}

impl Copied for Value {
    fn copy(&self, alloc: Global) -> Result<Value, NoMemory> {
        match self {
            Value::Plain(text) => Ok(Value::Plain(text.copy(alloc)?)),
            Value::Regex(text) => Ok(Value::Regex(text.copy(alloc)?)),
        }
    }
}

/// What stands around the constraint that is being copied.
#[derive(Drop)]
pub(crate) enum Frame<'a> {
    Not,
    /// The right operand is still to be copied.
    AndRight(&'a Constraint),
    OrRight(&'a Constraint),
    /// The left operand was copied.
    AndLeft(Constraint),
    OrLeft(Constraint),
}

fn push<'a>(frames: &mut Vec<Frame<'a>>, frame: Frame<'a>) -> Result<(), NoMemory>
    ensures { OnOk result (frames.new.items ≡ frames.old.items ++ frame.entry ∷ []) }
{
    match frames.push(frame) {
        Ok(()) => Ok(()),
        Err(_) => Err(NoMemory),
    }
}

fn boxed(alloc: Global, c: Constraint) -> Result<Boxed<Constraint>, NoMemory>
    ensures { IfOk result (λ b. b ≡ c) }
{
    match Boxed::new(alloc, c) {
        Ok(b) => Ok(b),
        Err(_) => Err(NoMemory),
    }
}

/// A copy of the leftmost part of a constraint; what stands around it goes onto the frames.
#[tactic(auto, using(crate::proofs::Walks::plugged_more, crate::proofs::Walks::total_more, crate::proofs::Walks::parts_in_not, crate::proofs::Walks::parts_in_and, crate::proofs::Walks::parts_in_or))]
fn leftmost<'a>(
    alloc: Global,
    frames: &mut Vec<Frame<'a>>,
    whole: &'a Constraint,
) -> Result<Constraint, NoMemory>
    ensures plugged { IfOk result (λ made. plugged frames.new.items made ≡ plugged frames.old.items whole.now) }
    ensures less { OnOk result (total frames.new.items < total frames.old.items + parts_in whole.now) }
{
    let mut at = whole;
    loop {
        match at {
            Constraint::Any => return Ok(Constraint::Any),
            Constraint::Is(field, value) => return Ok(Constraint::Is(*field, value.copy(alloc)?)),
            Constraint::Not(inner) => {
                push(frames, Frame::Not)?;
                at = inner.get();
            }
            Constraint::And(left, right) => {
                push(frames, Frame::AndRight(right.get()))?;
                at = left.get();
            }
            Constraint::Or(left, right) => {
                push(frames, Frame::OrRight(right.get()))?;
                at = left.get();
            }
        }
    }
}

/// A frame around what was copied; or its right operand is begun.
#[tactic(auto, using(crate::proofs::Walks::plugged_more, crate::proofs::Walks::total_more))]
fn wrapped<'a>(
    alloc: Global,
    frames: &mut Vec<Frame<'a>>,
    frame: Frame<'a>,
    made: Constraint,
) -> Result<Constraint, NoMemory>
    ensures plugged { IfOk result (λ next. plugged frames.new.items next ≡ plugged frames.old.items (around frame.entry made)) }
    ensures less { OnOk result (total frames.new.items < total frames.old.items + cost frame.entry) }
{
    match frame {
        Frame::Not => Ok(Constraint::Not(boxed(alloc, made)?)),
        Frame::AndRight(right) => {
            push(frames, Frame::AndLeft(made))?;
            leftmost(alloc, frames, right)
        }
        Frame::OrRight(right) => {
            push(frames, Frame::OrLeft(made))?;
            leftmost(alloc, frames, right)
        }
        Frame::AndLeft(left) => Ok(Constraint::And(boxed(alloc, left)?, boxed(alloc, made)?)),
        Frame::OrLeft(left) => Ok(Constraint::Or(boxed(alloc, left)?, boxed(alloc, made)?)),
    }
}

impl Copied for Constraint {
    #[tactic(auto, using(crate::proofs::Walks::plugged_more, crate::proofs::Walks::total_more))]
    fn copy(&self, alloc: Global) -> Result<Constraint, NoMemory> {
        let mut frames = Vec::new(alloc);
        let mut made = leftmost(alloc, &mut frames, self)?;
        while let Some(frame) = frames.pop() {
            made = wrapped(alloc, &mut frames, frame, made)?;
        }
        Ok(made)
    }
}

impl Constraint {
    /// Whether two constraints are the same. Calls go down right operands alone.
    #[tactic(auto, using(crate::proofs::Walks::not_same, crate::proofs::Walks::and_same, crate::proofs::Walks::or_same))]
    pub fn same(&self, other: &Constraint) -> bool
        ensures { IsTrue result ↔ (self.now ≡ other.now) }
    {
        let mut left = self;
        let mut right = other;
        loop {
            match left {
                Constraint::Any => return is_any(right),
                Constraint::Is(field, value) => return is_test(right, *field, value),
                Constraint::Not(inner) => match right {
                    Constraint::Not(twin) => {
                        left = inner.get();
                        right = twin.get();
                    }
                    _ => return false,
                },
                Constraint::And(first, second) => match right {
                    Constraint::And(twin, other) => {
                        if !second.get().same(other.get()) {
                            return false;
                        }
                        left = first.get();
                        right = twin.get();
                    }
                    _ => return false,
                },
                Constraint::Or(first, second) => match right {
                    Constraint::Or(twin, other) => {
                        if !second.get().same(other.get()) {
                            return false;
                        }
                        left = first.get();
                        right = twin.get();
                    }
                    _ => return false,
                },
            }
        }
    }
}

fn is_any(c: &Constraint) -> bool
    ensures { IsTrue result ↔ (constraint.Any ≡ c.now) }
{
    match c {
        Constraint::Any => true,
        _ => false,
    }
}

fn is_test(c: &Constraint, field: Field, value: &Value) -> bool
    ensures { IsTrue result ↔ (constraint.Is field value.now ≡ c.now) }
{
    match c {
        Constraint::Is(twin, other) => field == *twin && value.same(other),
        _ => false,
    }
}
