//! Moves from paths.
ghost use Rattle.std.specs.Prelude.{◌≡◌, ℕ, ◌+◌, ◌-◌, ◌*◌, ◌^◌, ◌<◌, ◌++◌, ◌∷◌, [], List, length, OnOk, IfOk, vec_len};
ghost use Rattle.od_reach.specs.Code.{any_size_list, code_any, code_list, code_of, code_size, endless_code, order_size_list, repeat_code, repeat_size, row_for, rows_list, rows_of, times_code, turns_code};
ghost use Rattle.od_reach.specs.declared.moves.Move.{Move as Next};

use crate::moves::Move;
use od_pattern::path::Path;
use od_pattern::pattern::Value;
use od_text::text::NoMemory;
use std::alloc::Global;

/// How many rows a path asks for.
#[cycle(count)]
#[tactic(auto, using(crate::proofs::Rows::rows_seq, crate::proofs::Rows::rows_alt, crate::proofs::Rows::rows_repeat), unfolding(od_asked::specs::Asked::asked_path))]
fn count(path: &Path) -> Result<usize, NoMemory>
    ensures { IfOk result (λ n. n ≡ rows_of path.now) }
{
    match path {
        Path::Along(None) | Path::Against(None) => Ok(0),
        Path::Along(Some(_)) | Path::Against(Some(_)) | Path::Filter(_) => Ok(1),
        Path::Seq(parts) => count_all(parts.get()),
        Path::Alt(parts) => count_all(parts.get()),
        Path::Repeat(body, _, _) => {
            let rows = count(body.get())?;
            Ok(rows)
        }
    }
}

/// How many rows the paths ask for.
#[cycle(count)]
#[tactic(auto, using(crate::proofs::Rows::rows_take))]
fn count_all(parts: &[Path]) -> Result<usize, NoMemory>
    ensures { IfOk result (λ n. n ≡ rows_list parts.now) }
{
    let mut sum = 0;
    for part in parts {
        sum = sum_of(sum, count(part)?)?;
    }
    Ok(sum)
}

/// The sum; one of 2^64 or more is refused as if there were no memory for it.
fn sum_of(a: usize, b: usize) -> Result<usize, NoMemory>
    ensures { IfOk result (λ n. n ≡ a + b) }
{
    match a.checked_add(b) {
        Some(n) => Ok(n),
        None => Err(NoMemory),
    }
}

/// Adds the moves of a path, of which the first row has the number `row`.
#[cycle(emit)]
#[tactic(auto, using(crate::proofs::Rows::code_seq, crate::proofs::Sizes::code_alt, crate::proofs::Rows::code_repeat, std::proofs::Common::append_assoc), unfolding(crate::specs::Code::code_of))]
fn emit(path: &Path, row: usize, code: &mut Vec<Move>) -> Result<(), NoMemory>
    ensures { OnOk result (code.new.items ≡ code.old.items ++ code_of row path.now) }
{
    match path {
        Path::Along(value) => push(Move::Along(row_at(row, value)?), code),
        Path::Against(value) => push(Move::Against(row_at(row, value)?), code),
        Path::Filter(_) => push(Move::Stay(short(row)?), code),
        Path::Seq(parts) => emit_all(parts.get(), row, code),
        Path::Alt(parts) => emit_any(parts.get(), row, code),
        Path::Repeat(body, least, most) => emit_repeat(body.get(), *least, *most, row, code),
    }
}

/// The row of a label's value; where any label will do there is none.
fn row_at(row: usize, value: &Option<Value>) -> Result<Option<u32>, NoMemory>
    ensures { IfOk result (λ r. r ≡ row_for row value.now) }
{
    match value {
        Some(_) => {
            let row = short(row)?;
            Ok(Some(row))
        }
        None => Ok(None),
    }
}

/// The number in four bytes; a larger one is refused as if there were no memory for it.
fn short(n: usize) -> Result<u32, NoMemory>
    ensures { IfOk result (λ m. m ≡ n) }
{
    if n <= 0xFFFF_FFFF {
        Ok(n as u32)
    } else {
        Err(NoMemory)
    }
}

/// One move more.
fn push(next: Move, code: &mut Vec<Move>) -> Result<(), NoMemory>
    ensures { OnOk result (code.new.items ≡ code.old.items ++ next ∷ []) }
{
    code.push(next)?;
    Ok(())
}

/// Adds the moves of paths one after another.
#[cycle(emit)]
#[tactic(auto, using(crate::proofs::Rows::code_drop, std::proofs::Common::append_assoc))]
fn emit_all(parts: &[Path], row: usize, code: &mut Vec<Move>) -> Result<(), NoMemory>
    ensures { OnOk result (code.new.items ≡ code.old.items ++ code_list row parts.now) }
{
    let mut next = row;
    for part in parts {
        emit(part, next, code)?;
        next = sum_of(next, count(part)?)?;
    }
    Ok(())
}

/// How many moves a path has.
#[cycle(size)]
#[tactic(auto, using(crate::proofs::Sizes::size_seq, crate::proofs::Sizes::size_alt, crate::proofs::Sizes::size_repeat), unfolding(crate::specs::Code::code_size))]
fn size_of(path: &Path) -> Result<usize, NoMemory>
    ensures { IfOk result (λ n. n ≡ code_size path.now) }
{
    match path {
        Path::Along(_) | Path::Against(_) | Path::Filter(_) => Ok(1),
        Path::Seq(parts) => size_all(parts.get()),
        Path::Alt(parts) => size_any(parts.get()),
        Path::Repeat(body, least, most) => {
            let size = size_of(body.get())?;
            size_repeat(size, *least, *most)
        }
    }
}

/// How many moves the paths have one after another.
#[cycle(size)]
#[tactic(auto, using(crate::proofs::Sizes::order_size_take))]
fn size_all(parts: &[Path]) -> Result<usize, NoMemory>
    ensures { IfOk result (λ n. n ≡ order_size_list parts.now) }
{
    let mut sum = 0;
    for part in parts {
        sum = sum_of(sum, size_of(part)?)?;
    }
    Ok(sum)
}

/// How many moves the choice of one of the paths has.
#[cycle(size)]
#[tactic(auto, using(crate::proofs::Sizes::any_size_take))]
fn size_any(parts: &[Path]) -> Result<usize, NoMemory>
    ensures { IfOk result (λ n. n ≡ any_size_list parts.now) }
{
    let mut sum = 1;
    for part in parts {
        let size = sum_of(size_of(part)?, 2)?;
        sum = sum_of(sum, size)?;
    }
    Ok(sum)
}

/// How many moves a repeat has whose body has so many.
fn size_repeat(size: usize, least: u32, most: Option<u32>) -> Result<usize, NoMemory>
    ensures { IfOk result (λ n. n ≡ repeat_size size least most) }
{
    let first = product_of(least as usize, size)?;
    match most {
        None => {
            let turn = sum_of(size, 2)?;
            sum_of(first, turn)
        }
        Some(most) => {
            if least <= most {
                let turn = sum_of(size, 1)?;
                let further = product_of((most - least) as usize, turn)?;
                sum_of(first, further)
            } else {
                Ok(1)
            }
        }
    }
}

/// The product; one of 2^64 or more is refused as if there were no memory for it.
fn product_of(a: usize, b: usize) -> Result<usize, NoMemory>
    ensures { IfOk result (λ n. n ≡ a * b) }
{
    match a.checked_mul(b) {
        Some(n) => Ok(n),
        None => Err(NoMemory),
    }
}

/// Adds the moves of the choice of one of the paths.
#[cycle(emit)]
#[tactic(auto, using(crate::proofs::Sizes::any_size_drop, crate::proofs::Sizes::any_written))]
fn emit_any(parts: &[Path], row: usize, code: &mut Vec<Move>) -> Result<(), NoMemory>
    ensures { OnOk result (code.new.items ≡ code.old.items ++ code_any row parts.now) }
{
    let mut next = row;
    let mut rest = size_any(parts)?;
    for part in parts {
        let size = size_of(part)?;
        rest = rest.saturating_sub(size).saturating_sub(2);
        push(Move::Fork(short(sum_of(size, 1)?)?), code)?;
        emit(part, next, code)?;
        push(Move::Skip(short(rest)?), code)?;
        next = sum_of(next, count(part)?)?;
    }
    push(Move::Fail, code)
}

/// Adds the moves of a repeat.
#[cycle(emit)]
fn emit_repeat(
    body: &Path,
    least: u32,
    most: Option<u32>,
    row: usize,
    code: &mut Vec<Move>,
) -> Result<(), NoMemory>
    ensures { OnOk result (code.new.items
        ≡ code.old.items ++ repeat_code (code_of row body.now) least most) }
{
    match most {
        None => {
            emit_times(body, least, row, code)?;
            emit_endless(body, row, code)
        }
        Some(most) => {
            if least <= most {
                emit_times(body, least, row, code)?;
                emit_turns(body, most - least, row, code)
            } else {
                push(Move::Fail, code)
            }
        }
    }
}

/// Adds the body so many times: the turns that must be taken.
#[cycle(emit)]
#[tactic(auto, using(crate::proofs::Sizes::times_written))]
fn emit_times(body: &Path, n: u32, row: usize, code: &mut Vec<Move>) -> Result<(), NoMemory>
    ensures { OnOk result ((rest : List Next)
        → code.new.items ++ rest ≡ code.old.items ++ times_code (code_of row body.now) n rest) }
{
    for _k in 0..n {
        emit(body, row, code)?;
    }
    Ok(())
}

/// Adds any number of further turns.
#[cycle(emit)]
#[tactic(auto, using(crate::proofs::Sizes::length_code, std::proofs::Common::append_assoc))]
fn emit_endless(body: &Path, row: usize, code: &mut Vec<Move>) -> Result<(), NoMemory>
    ensures { OnOk result (code.new.items
        ≡ code.old.items ++ endless_code (code_of row body.now)) }
{
    let size = size_of(body)?;
    let turn = short(sum_of(size, 1)?)?;
    push(Move::Fork(turn), code)?;
    emit(body, row, code)?;
    push(Move::Back(turn), code)
}

/// Adds up to `n` further turns, before each of which a fork leads out of all of them.
#[cycle(emit)]
#[tactic(auto, using(crate::proofs::Sizes::length_code, crate::proofs::Sizes::turns_written))]
fn emit_turns(body: &Path, n: u32, row: usize, code: &mut Vec<Move>) -> Result<(), NoMemory>
    ensures { OnOk result (code.new.items
        ≡ code.old.items ++ turns_code (code_of row body.now) n) }
{
    let size = size_of(body)?;
    let turn = sum_of(size, 1)?;
    for k in 0..n {
        let after = product_of((n - k - 1) as usize, turn)?;
        let skip = sum_of(size, after)?;
        push(Move::Fork(short(skip)?), code)?;
        emit(body, row, code)?;
    }
    Ok(())
}

/// The moves of a path, of which the first row has the number `first` in the table.
///
/// # Errors
///
/// `NoMemory` where memory is refused; 2^31 - 1 moves or more are refused so before any of them is
/// made, and row numbers of 2^32 or more.
#[tactic(auto, using(crate::proofs::Sizes::length_code))]
pub fn compile(alloc: Global, path: &Path, first: usize) -> Result<Vec<Move>, NoMemory>
    ensures code { IfOk result (λ code. code.items ≡ code_of first path.now) }
    ensures few { IfOk result (λ code. vec_len code < 2 ^ 31 - 1) }
{
    if size_of(path)? >= 0x7FFF_FFFF {
        return Err(NoMemory);
    }
    let mut code = Vec::new(alloc);
    emit(path, first, &mut code)?;
    Ok(code)
}
