//! Where the ways through a program can meet: the instructions to which others lead than the one
//! before. There alone a state needs a mark once it was taken up.
ghost use Rattle.std.specs.Prelude.{◌≡◌, ℕ, ◌+◌, ◌^◌, ◌<◌, ◌⊎◌, true, false, length, Option, Some, None, slice_get, slice_index_or, vec_len, if◌then◌else◌, IfOk};
ghost use Rattle.od_machine.specs.Points.{target_of, IsTarget, MeetAtTargets, numbered_from, AreNumbered, runs, AreMeetingPoints};

use crate::instruction::Instruction;
use od_text::list::List;
use od_text::text::NoMemory;
use std::alloc::Global;

/// The instructions of a program at which ways can meet, numbered in their order.
#[derive(Debug, Drop)]
pub struct Points {
    /// The number of each instruction, if ways can meet there.
    pub(crate) slots: List<Option<u32>>,
    /// How many have one.
    pub(crate) count: usize,
    pub ghost numbered: { AreNumbered slots },
    pub ghost counted: { count ≡ length (runs slots) },
}

/// Where the instruction leads, but for a single way to the next one: behind a labelled span there
/// may be many.
fn target_of(instr: &Instruction, pc: usize) -> Option<usize>
    requires { pc < 2 ^ 31 }
    ensures { result ≡ target_of instr.now pc }
{
    match instr {
        Instruction::Jump(_) => Some(pc + 1),
        Instruction::Split(skip) => Some(pc + 1 + *skip as usize),
        Instruction::Skip(skip) => Some(pc + 1 + *skip as usize),
        Instruction::Turn { skip, .. } => Some(pc + 1 + *skip as usize),
        Instruction::Again { back, .. } => Some(pc.saturating_sub(*back as usize)),
        _ => None,
    }
}

/// Notes that ways can meet at the target, if an instruction stands there.
fn note_target(meets: &mut Vec<bool>, target: Option<usize>)
    ensures len { vec_len meets.new ≡ vec_len meets.old }
    ensures noted { (to : ℕ) → target ≡ Some to → slice_index_or meets.new.items to true ≡ true }
    ensures kept { (k : ℕ) → slice_index_or meets.old.items k true ≡ true
        → slice_index_or meets.new.items k true ≡ true }
    ensures only { (k : ℕ) → slice_index_or meets.new.items k false ≡ true
        → (target ≡ Some k) ⊎ (slice_index_or meets.old.items k false ≡ true) }
{
    if let Some(pc) = target
        && pc < meets.len()
    {
        meets[pc] = true;
    }
}

/// For each instruction whether ways can meet there.
fn meetings(alloc: Global, code: &[Instruction]) -> Result<Vec<bool>, NoMemory>
    requires { length code.now < 2 ^ 31 }
    ensures size { IfOk result (λ meets. vec_len meets ≡ length code.now) }
    ensures targets { IfOk result (λ meets. MeetAtTargets code.now meets.items) }
    ensures only { IfOk result (λ meets. (k : ℕ)
        → slice_index_or meets.items k false ≡ true → IsTarget code.now k) }
{
    let mut meets = Vec::new(alloc);
    meets.resize(code.len(), false)?;
    for pc in 0..code.len() {
        note_target(&mut meets, target_of(&code[pc], pc));
    }
    Ok(meets)
}

/// The number, if the test passes.
fn number_if(test: bool, number: u32) -> Option<u32>
    ensures { result ≡ (if test then Some number else None) }
{
    if test { Some(number) } else { None }
}

/// The meeting points with their numbers.
fn number_meetings(alloc: Global, meets: &[bool]) -> Result<Points, NoMemory>
    requires { length meets.now < 2 ^ 31 }
    ensures { IfOk result (λ points. points.slots ≡ numbered_from 0 meets.now) }
{
    let mut slots = List::new(alloc);
    let mut count = 0;
    for meeting in meets {
        slots.push(number_if(*meeting, count))?;
        count += u32::from(*meeting);
    }
    Ok(Points {
        slots,
        count: count as usize,
    })
}

impl Points {
    /// The meeting points of a program.
    pub(crate) fn of(alloc: Global, code: &[Instruction]) -> Result<Points, NoMemory>
        requires { length code.now < 2 ^ 31 }
        ensures meet { IfOk result (λ points. AreMeetingPoints code.now points.slots) }
        ensures only { IfOk result (λ points. (pc n : ℕ)
            → slice_get points.slots pc ≡ Some (Some n) → IsTarget code.now pc) }
    {
        let meets = meetings(alloc, code)?;
        number_meetings(alloc, meets.as_slice())
    }

    /// The number of the instruction, if ways can meet there.
    #[inline(always)]
    pub(crate) fn slot(&self, pc: usize) -> Option<u32>
        requires { pc < length self.now.slots }
        ensures { slice_get self.now.slots pc ≡ Some result }
    {
        self.slots.get()[pc]
    }
}
