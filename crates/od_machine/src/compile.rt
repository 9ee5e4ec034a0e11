//! Programs from patterns.
ghost use Rattle.std.specs.Prelude.{◌≡◌, ℕ, ◌+◌, ◌-◌, ◌*◌, ◌^◌, ◌<◌, ◌≤◌, ◌++◌, ◌∷◌, [], List as Seq, length, OnOk, IfOk, vec_len};
ghost use Rattle.od_machine.specs.Code.{constraints};
ghost use Rattle.od_machine.specs.Found.{IsProgramOf};
ghost use Rattle.od_machine.specs.Code.{program_of, code_of, code_list, code_any, constraints_list, code_size, order_size_list, any_size_list, repeat_size, repeat_code, times_code, turns_code, endless_code};
ghost use Rattle.od_machine.specs.declared.instruction.Instruction.{Instruction as Code};

use crate::instruction::Instruction;
use crate::points::Points;
use crate::program::Program;
use od_pattern::pattern::{Surface, Turns};
use od_text::list::List;
use od_text::text::{Copied, NoMemory};
use std::alloc::Global;

/// How many constraints a pattern asks for.
#[cycle(count)]
#[tactic(auto, using(crate::proofs::Rows::constraints_seq, crate::proofs::Rows::constraints_alt, crate::proofs::Rows::constraints_repeat, crate::proofs::Rows::constraints_capture), unfolding(od_asked::specs::Asked::asked_surface))]
fn count(pattern: &Surface) -> Result<usize, NoMemory>
    ensures { IfOk result (λ n. n ≡ constraints pattern.now) }
{
    match pattern {
        Surface::Token(_) | Surface::Look { .. } => Ok(1),
        Surface::Label(_) | Surface::First | Surface::Last => Ok(0),
        Surface::Seq(parts) => count_all(parts.get()),
        Surface::Alt(parts) => count_all(parts.get()),
        Surface::Repeat(body, _) => count(body.get()),
        Surface::Capture(_, body) => count(body.get()),
    }
}

/// How many constraints the patterns ask for.
#[cycle(count)]
#[tactic(auto, using(crate::proofs::Rows::constraints_take, crate::proofs::Rows::constraints_at))]
fn count_all(parts: &[Surface]) -> Result<usize, NoMemory>
    ensures { IfOk result (λ n. n ≡ constraints_list parts.now) }
{
    let mut sum = 0;
    for part in parts {
        sum = sum_of(sum, count(part)?)?;
    }
    Ok(sum)
}

/// The sum; one of 2^64 or more is refused as if there were no memory for it.
fn sum_of(a: usize, b: usize) -> Result<usize, NoMemory>
    ensures { IfOk result (λ n. n ≡ a + b) }
{
    match a.checked_add(b) {
        Some(n) => Ok(n),
        None => Err(NoMemory),
    }
}

/// Adds the instructions of a pattern, of which the first constraint has the number `row`.
#[cycle(emit)]
#[tactic(auto, using(crate::proofs::Rows::code_seq, crate::proofs::Sizes::code_alt, crate::proofs::Rows::code_repeat, crate::proofs::Rows::code_capture, std::proofs::Common::append_assoc), unfolding(crate::specs::Code::code_of))]
fn emit(
    alloc: Global,
    pattern: &Surface,
    row: usize,
    code: &mut Vec<Instruction>,
) -> Result<(), NoMemory>
    ensures { OnOk result (code.new.items ≡ code.old.items ++ code_of row pattern.now) }
{
    match pattern {
        Surface::Token(_) => push(Instruction::Take(short(row)?), code),
        Surface::Label(name) => push(Instruction::Jump(name.copy(alloc)?), code),
        Surface::Look {
            ahead,
            positive,
            ..
        } => push(
            Instruction::Peek {
                ahead: *ahead,
                positive: *positive,
                row: short(row)?,
            },
            code,
        ),
        Surface::First => push(Instruction::AtFirst, code),
        Surface::Last => push(Instruction::AtLast, code),
        Surface::Seq(parts) => emit_all(alloc, parts.get(), row, code),
        Surface::Capture(name, body) => {
            push(Instruction::Open(name.copy(alloc)?), code)?;
            emit(alloc, body.get(), row, code)?;
            push(Instruction::Close, code)
        }
        Surface::Alt(parts) => emit_any(alloc, parts.get(), row, code),
        Surface::Repeat(body, turns) => emit_repeat(alloc, body.get(), *turns, row, code),
    }
}

/// Adds the instructions of patterns one after another.
#[cycle(emit)]
#[tactic(auto, using(crate::proofs::Rows::constraints_drop, crate::proofs::Rows::code_drop, std::proofs::Common::append_assoc))]
fn emit_all(
    alloc: Global,
    parts: &[Surface],
    row: usize,
    code: &mut Vec<Instruction>,
) -> Result<(), NoMemory>
    ensures { OnOk result (code.new.items ≡ code.old.items ++ code_list row parts.now) }
{
    let mut next = row;
    for part in parts {
        emit(alloc, part, next, code)?;
        next = sum_of(next, count(part)?)?;
    }
    Ok(())
}

/// One instruction more.
fn push(instr: Instruction, code: &mut Vec<Instruction>) -> Result<(), NoMemory>
    ensures { OnOk result (code.new.items ≡ code.old.items ++ instr ∷ []) }
{
    code.push(instr)?;
    Ok(())
}

/// How many instructions a pattern has.
#[cycle(size)]
#[tactic(auto, using(crate::proofs::Sizes::size_seq, crate::proofs::Sizes::size_alt, crate::proofs::Sizes::size_repeat, crate::proofs::Sizes::size_capture), unfolding(crate::specs::Code::code_size))]
fn size_of(pattern: &Surface) -> Result<usize, NoMemory>
    ensures { IfOk result (λ n. n ≡ code_size pattern.now) }
{
    match pattern {
        Surface::Token(_) | Surface::Look { .. } => Ok(1),
        Surface::Label(_) | Surface::First | Surface::Last => Ok(1),
        Surface::Seq(parts) => size_all(parts.get()),
        Surface::Alt(parts) => size_any(parts.get()),
        Surface::Repeat(body, turns) => {
            let size = size_of(body.get())?;
            size_repeat(size, *turns)
        }
        Surface::Capture(_, body) => {
            let size = size_of(body.get())?;
            sum_of(size, 2)
        }
    }
}

/// How many instructions the patterns have one after another.
#[cycle(size)]
#[tactic(auto, using(crate::proofs::Sizes::order_size_take))]
fn size_all(parts: &[Surface]) -> Result<usize, NoMemory>
    ensures { IfOk result (λ n. n ≡ order_size_list parts.now) }
{
    let mut sum = 0;
    for part in parts {
        sum = sum_of(sum, size_of(part)?)?;
    }
    Ok(sum)
}

/// How many instructions the choice of one of the patterns has.
#[cycle(size)]
#[tactic(auto, using(crate::proofs::Sizes::any_size_take))]
fn size_any(parts: &[Surface]) -> Result<usize, NoMemory>
    ensures { IfOk result (λ n. n ≡ any_size_list parts.now) }
{
    let mut sum = 1;
    for part in parts {
        let size = sum_of(size_of(part)?, 2)?;
        sum = sum_of(sum, size)?;
    }
    Ok(sum)
}

/// How many instructions a repeat has whose body has so many.
fn size_repeat(size: usize, turns: Turns) -> Result<usize, NoMemory>
    ensures { IfOk result (λ n. n ≡ repeat_size size turns.least turns.most) }
{
    let least = product_of(turns.least as usize, size)?;
    let turn = sum_of(size, 2)?;
    match turns.most {
        None => sum_of(least, turn),
        Some(most) => {
            if turns.least <= most {
                let further = product_of((most - turns.least) as usize, turn)?;
                sum_of(least, further)
            } else {
                Ok(1)
            }
        }
    }
}

/// The product; one of 2^64 or more is refused as if there were no memory for it.
fn product_of(a: usize, b: usize) -> Result<usize, NoMemory>
    ensures { IfOk result (λ n. n ≡ a * b) }
{
    match a.checked_mul(b) {
        Some(n) => Ok(n),
        None => Err(NoMemory),
    }
}

/// The number in four bytes; a larger one is refused as if there were no memory for it.
fn short(n: usize) -> Result<u32, NoMemory>
    ensures { IfOk result (λ m. m ≡ n) }
{
    if n <= 0xFFFF_FFFF {
        Ok(n as u32)
    } else {
        Err(NoMemory)
    }
}

/// Adds the instructions of the choice of one of the patterns, an earlier one first.
#[cycle(emit)]
#[tactic(auto, using(crate::proofs::Sizes::any_size_drop, crate::proofs::Sizes::any_written))]
fn emit_any(
    alloc: Global,
    parts: &[Surface],
    row: usize,
    code: &mut Vec<Instruction>,
) -> Result<(), NoMemory>
    ensures { OnOk result (code.new.items ≡ code.old.items ++ code_any row parts.now) }
{
    let mut next = row;
    let mut rest = size_any(parts)?;
    for part in parts {
        let size = size_of(part)?;
        rest = rest.saturating_sub(size).saturating_sub(2);
        push(Instruction::Split(short(sum_of(size, 1)?)?), code)?;
        emit(alloc, part, next, code)?;
        push(Instruction::Skip(short(rest)?), code)?;
        next = sum_of(next, count(part)?)?;
    }
    push(Instruction::Fail, code)
}

/// Adds the instructions of a repeat.
#[cycle(emit)]
fn emit_repeat(
    alloc: Global,
    body: &Surface,
    turns: Turns,
    row: usize,
    code: &mut Vec<Instruction>,
) -> Result<(), NoMemory>
    ensures { OnOk result (code.new.items
        ≡ code.old.items ++ repeat_code turns.lazy (code_of row body.now) turns.least turns.most) }
{
    match turns.most {
        None => {
            emit_times(alloc, body, turns.least, row, code)?;
            emit_endless(alloc, body, turns.lazy, row, code)
        }
        Some(most) => {
            if turns.least <= most {
                emit_times(alloc, body, turns.least, row, code)?;
                emit_turns(alloc, body, turns.lazy, most - turns.least, row, code)
            } else {
                push(Instruction::Fail, code)
            }
        }
    }
}

/// Adds the body so many times: the turns that need not take a token.
#[cycle(emit)]
#[tactic(auto, using(crate::proofs::Sizes::times_written))]
fn emit_times(
    alloc: Global,
    body: &Surface,
    n: u32,
    row: usize,
    code: &mut Vec<Instruction>,
) -> Result<(), NoMemory>
    ensures { OnOk result ((rest : Seq Code)
        → code.new.items ++ rest ≡ code.old.items ++ times_code (code_of row body.now) n rest) }
{
    for _k in 0..n {
        emit(alloc, body, row, code)?;
    }
    Ok(())
}

/// Adds any number of further turns.
#[cycle(emit)]
#[tactic(auto, using(crate::proofs::Sizes::length_code, std::proofs::Common::append_assoc))]
fn emit_endless(
    alloc: Global,
    body: &Surface,
    lazy: bool,
    row: usize,
    code: &mut Vec<Instruction>,
) -> Result<(), NoMemory>
    ensures { OnOk result (code.new.items
        ≡ code.old.items ++ endless_code lazy (code_of row body.now)) }
{
    let size = size_of(body)?;
    push(
        Instruction::Turn {
            lazy,
            skip: short(sum_of(size, 1)?)?,
        },
        code,
    )?;
    emit(alloc, body, row, code)?;
    push(
        Instruction::Again {
            lazy,
            back: short(size)?,
        },
        code,
    )
}

/// Adds up to `n` further turns, each of which leads out of all of them.
#[cycle(emit)]
#[tactic(auto, using(crate::proofs::Sizes::length_code, crate::proofs::Sizes::turns_written))]
fn emit_turns(
    alloc: Global,
    body: &Surface,
    lazy: bool,
    n: u32,
    row: usize,
    code: &mut Vec<Instruction>,
) -> Result<(), NoMemory>
    ensures { OnOk result (code.new.items
        ≡ code.old.items ++ turns_code lazy (code_of row body.now) n) }
{
    let size = size_of(body)?;
    let turn = sum_of(size, 2)?;
    for k in 0..n {
        let after = product_of((n - k - 1) as usize, turn)?;
        let skip = sum_of(size, sum_of(1, after)?)?;
        push(
            Instruction::Turn {
                lazy,
                skip: short(skip)?,
            },
            code,
        )?;
        emit(alloc, body, row, code)?;
        push(Instruction::Turned, code)?;
    }
    Ok(())
}

/// The instructions of a pattern, and the end.
#[tactic(auto, unfolding(crate::specs::Code::program_of))]
fn emit_program(alloc: Global, pattern: &Surface) -> Result<Vec<Instruction>, NoMemory>
    ensures { IfOk result (λ code. code.items ≡ program_of pattern.now) }
{
    let mut code = Vec::new(alloc);
    emit(alloc, pattern, 0, &mut code)?;
    push(Instruction::Match, &mut code)?;
    Ok(code)
}

/// The program of a pattern. Want of memory is the only error; a program of 2^31 instructions or
/// more is refused so before any of them is made.
#[tactic(auto, using(crate::proofs::Sizes::length_program))]
pub fn compile(alloc: Global, pattern: &Surface) -> Result<Program, NoMemory>
    ensures { IfOk result (λ program. IsProgramOf program pattern.now) }
{
    if size_of(pattern)? >= 0x7FFF_FFFF {
        return Err(NoMemory);
    }
    let code = emit_program(alloc, pattern)?;
    let points = Points::of(alloc, code.as_slice())?;
    Ok(Program {
        code: List::from_vec(code),
        points,
    })
}
