//! A hop, read from lexemes.
ghost use Rattle.std.specs.Prelude.{◌≡◌, ℕ, ◌+◌, ◌<◌, ◌≤◌, List, [], ◌∷◌, drop, length, Option, Some, None, Ok, IfOk};
ghost use Rattle.od_pattern.specs.declared.rule.Hop.{Hop};
ghost use Rattle.od_language.specs.Machine.{GoesOn};
ghost use Rattle.od_syntax.specs.HopMachine.{between, behind, alone, joined};
ghost use Rattle.od_syntax.specs.HopVerdicts.{hop_start};
ghost use Rattle.od_syntax.specs.Sizes.{counted, surface_size, path_size, hop_size};
ghost use Rattle.od_syntax.specs.StepsMachine.{begun};
ghost use Rattle.od_syntax.specs.Told.{told};
ghost use Rattle.od_syntax.specs.Verdicts.{surface_start};
ghost use Rattle.od_hop.specs.Reading.{hop_run, hop_from, on_behind};

use crate::surface::{Piece, surface_behind, surface_up_to};
use od_language::lexeme::Lexeme;
use od_language::pattern_fault::PatternFault;
use od_path::step::Found;
use od_path::steps::{is_step, steps_at};
use od_pattern::rule::{Hop, HopPart};
use od_surface::sizes::together;
use od_text::list::List;
use std::alloc::Global;

/// Steps and the surface behind them that were read.
#[derive(Debug, Drop)]
pub struct Joint {
    pub part: HopPart,
    /// The size of both, counted to one more than a pattern may have.
    pub size: u32,
    /// The number of the lexeme behind them, from 0.
    pub to: usize,
}

/// A hop that was read.
#[derive(Debug, Drop)]
pub struct Joined {
    pub hop: Hop,
    /// Its size, counted to one more than a pattern may have.
    pub size: u32,
    /// The number of the lexeme behind it, from 0.
    pub to: usize,
}

/// Steps that were read, and the surface behind them.
#[tactic(auto, using(od_surface::proofs::Counted::counted_most, od_surface::proofs::Counted::counted_sum))]
fn joint_behind(
    alloc: Global,
    lexemes: &[Lexeme],
    steps: Found,
    again: Option<u32>,
) -> Result<Joint, PatternFault>
    requires { (steps.to ≤ length lexemes.now) × (steps.size ≡ counted (path_size steps.path)) }
    ensures goes { (h : Hop) →
        GoesOn result
        (hop_run again 0 (behind h steps.path surface_start) (told (drop steps.to lexemes.now)))
        (λ x. hop_from again 0 (joined h x.part.path x.part.surface)
        (told (drop x.to lexemes.now))) }
    ensures size { IfOk result
        (λ x. x.size ≡ counted (path_size x.part.path + surface_size x.part.surface)) }
    ensures on { IfOk result (λ x. (steps.to < x.to) × (x.to ≤ length lexemes.now)) }
{
    match surface_behind(alloc, lexemes, steps.to, again) {
        Ok(surface) => {
            let size = together(steps.size as u32, surface.size);
            let to = surface.to;
            let part = HopPart {
                path: steps.path,
                surface: surface.pattern,
            };
            Ok(Joint { part, size, to })
        }
        Err(fault) => Err(fault),
    }
}

/// Steps and the surface behind them.
fn joint_at(
    alloc: Global,
    lexemes: &[Lexeme],
    from: usize,
    again: Option<u32>,
) -> Result<Joint, PatternFault>
    ensures goes { (h : Hop) →
        GoesOn result (hop_run again 0 (between h begun) (told (drop from lexemes.now)))
        (λ x. hop_from again 0 (joined h x.part.path x.part.surface)
        (told (drop x.to lexemes.now))) }
    ensures size { IfOk result
        (λ x. x.size ≡ counted (path_size x.part.path + surface_size x.part.surface)) }
    ensures on { IfOk result (λ x. (from < x.to) × (x.to ≤ length lexemes.now)) }
{
    match steps_at(alloc, lexemes, from, 0) {
        Ok(steps) => joint_behind(alloc, lexemes, steps, again),
        Err(fault) => Err(fault),
    }
}

/// Steps and surfaces, as long as steps come, behind the first surface of a hop.
#[tactic(auto, using(od_surface::proofs::Counted::counted_most))]
fn joints(
    alloc: Global,
    lexemes: &[Lexeme],
    first: Piece,
    again: Option<u32>,
) -> Result<Joined, PatternFault>
    requires { (first.to ≤ length lexemes.now) ×
        (first.size ≡ counted (surface_size first.pattern)) }
    ensures goes { GoesOn result
        (hop_from again 0 (alone first.pattern) (told (drop first.to lexemes.now)))
        (λ x. Ok (x.hop, told (drop x.to lexemes.now))) }
    ensures size { IfOk result (λ x. x.size ≡ counted (hop_size x.hop)) }
    ensures on { IfOk result (λ x. x.to ≤ length lexemes.now) }
{
    let Piece {
        pattern,
        single: _,
        size,
        to,
    } = first;
    let mut i = to;
    let mut sum = size;
    let mut rest = List::new(alloc);
    while is_step(lexemes, i) {
        let next = match joint_at(alloc, lexemes, i, again) {
            Ok(next) => next,
            Err(fault) => return Err(fault),
        };
        rest.push(next.part)?;
        sum = together(sum, next.size);
        i = next.to;
    }
    let hop = Hop {
        first: pattern,
        rest,
    };
    Ok(Joined {
        hop,
        size: sum,
        to: i,
    })
}

/// A surface alone.
fn alone_of(alloc: Global, surface: Piece) -> Joined
    ensures { (result.hop ≡ alone surface.pattern) × (result.size ≡ surface.size) ×
        (result.to ≡ surface.to) }
{
    let Piece {
        pattern,
        single: _,
        size,
        to,
    } = surface;
    let hop = Hop {
        first: pattern,
        rest: List::new(alloc),
    };
    Joined { hop, size, to }
}

/// A hop, from behind its first surface on.
fn rest_of(
    alloc: Global,
    lexemes: &[Lexeme],
    first: Piece,
    again: Option<u32>,
) -> Result<Joined, PatternFault>
    requires { (first.to ≤ length lexemes.now) ×
        (first.size ≡ counted (surface_size first.pattern)) }
    ensures goes { GoesOn result
        (on_behind again None first.single first.pattern (told (drop first.to lexemes.now)))
        (λ x. Ok (x.hop, told (drop x.to lexemes.now))) }
    ensures size { IfOk result (λ x. x.size ≡ counted (hop_size x.hop)) }
    ensures on { IfOk result (λ x. x.to ≤ length lexemes.now) }
{
    if first.single {
        return joints(alloc, lexemes, first, again);
    }
    Ok(alone_of(alloc, first))
}

/// The hop that lexemes begin with, where `again` is the place of the first capture that is named
/// again.
pub fn hop_read(
    alloc: Global,
    lexemes: &[Lexeme],
    again: Option<u32>,
) -> Result<Joined, PatternFault>
    ensures goes { GoesOn result (hop_run again 0 hop_start (told lexemes.now))
        (λ x. Ok (x.hop, told (drop x.to lexemes.now))) }
    ensures size { IfOk result (λ x. x.size ≡ counted (hop_size x.hop)) }
    ensures on { IfOk result (λ x. x.to ≤ length lexemes.now) }
{
    match surface_up_to(alloc, lexemes, 0, false, again) {
        Ok(first) => rest_of(alloc, lexemes, first, again),
        Err(fault) => Err(fault),
    }
}
