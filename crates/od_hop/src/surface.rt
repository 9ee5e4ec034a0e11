//! The surfaces of a hop, read from lexemes.
ghost use Rattle.std.specs.Prelude.{◌≡◌, ℕ, ◌+◌, ◌<◌, ◌≤◌, Bool, List, [], ◌∷◌, drop, take, length, Option, Some, None, Ok, Err, IfOk};
ghost use Rattle.od_pattern.specs.declared.path.Path.{Path};
ghost use Rattle.od_pattern.specs.declared.rule.Hop.{Hop};
ghost use Rattle.od_language.specs.Machine.{GoesOn};
ghost use Rattle.od_surface.specs.Reading.{run, place_or};
ghost use Rattle.od_syntax.specs.HopMachine.{behind, joined};
ghost use Rattle.od_syntax.specs.Sizes.{counted, surface_size};
ghost use Rattle.od_syntax.specs.Told.{told};
ghost use Rattle.od_syntax.specs.Verdicts.{surface_start};
ghost use Rattle.od_hop.specs.Reading.{hop_run, hop_from, Before, is_behind, into, left_so, on_behind};

use crate::ends::surface_end;
use od_language::lexeme::Lexeme;
use od_language::pattern_fault::PatternFault;
use od_pattern::pattern::Surface;
use od_surface::lexemes::{Places, is_or, next, unexpected};
use od_surface::single::Found;
use od_surface::surface::{more_choices, parts};
use std::alloc::Global;

/// A surface of a hop that was read.
#[derive(Debug, Drop)]
pub struct Piece {
    pub pattern: Surface,
    /// Whether no choice stands in it outside brackets, so that steps may follow.
    pub single: bool,
    /// Its size, counted to one more than a pattern may have.
    pub size: u32,
    /// The number of the lexeme behind it, from 0.
    pub to: usize,
}

fn piece_of(found: Found, single: bool) -> Piece
    ensures { (result.pattern ≡ found.pattern) × (result.single ≡ single) ×
        (result.size ≡ found.size) × (result.to ≡ found.to) }
{
    let Found {
        pattern,
        nullable: _,
        size,
        to,
    } = found;
    Piece {
        pattern,
        single,
        size,
        to,
    }
}

/// A surface in lexemes that end where it has to.
#[tactic(auto, using(crate::proofs::Verdicts::piece_one))]
fn surface_within(
    alloc: Global,
    lexemes: &[Lexeme],
    from: usize,
    places: Places,
) -> Result<Piece, PatternFault>
    ensures goes { GoesOn result (run places 0 surface_start (drop from lexemes.now))
        (λ x. Ok (left_so x.single x.pattern, drop x.to lexemes.now)) }
    ensures size { IfOk result (λ x. x.size ≡ counted (surface_size x.pattern)) }
    ensures on { IfOk result (λ x. (from < x.to) × (x.to ≤ length lexemes.now)) }
{
    let first = parts(alloc, lexemes, from, 0, places)?;
    if is_or(lexemes, first.to) {
        let all = more_choices(alloc, lexemes, first, 0, places)?;
        Ok(piece_of(all, false))
    } else {
        Ok(piece_of(first, true))
    }
}

/// The place of a lexeme in the text, or 0 behind all.
fn place_of(lexemes: &[Lexeme], i: usize) -> u32
    ensures { result ≡ place_or 0 (drop i lexemes.now) }
{
    match next(lexemes, i) {
        Some(x) => x.at,
        None => 0,
    }
}

/// The surface at a place, up to where it has to end: the first of a hop, or a `narrow` one, as
/// behind steps, which ends before a `|` outside brackets too.
pub fn surface_up_to(
    alloc: Global,
    lexemes: &[Lexeme],
    from: usize,
    narrow: bool,
    again: Option<u32>,
) -> Result<Piece, PatternFault>
    requires { from ≤ length lexemes.now }
    ensures goes { (m : Before) → narrow ≡ is_behind m →
        GoesOn result (hop_run again 0 (into m surface_start) (told (drop from lexemes.now)))
        (λ x. on_behind again m x.single x.pattern (told (drop x.to lexemes.now))) }
    ensures size { IfOk result (λ x. x.size ≡ counted (surface_size x.pattern)) }
    ensures on { IfOk result (λ x. (from < x.to) × (x.to ≤ length lexemes.now)) }
{
    let end = surface_end(lexemes, from, narrow);
    let places = Places {
        again,
        behind: place_of(lexemes, end),
    };
    let before = &lexemes[..end];
    surface_within(alloc, before, from, places)
}

/// A surface that was read, if steps may be joined to it.
fn without_choices(lexemes: &[Lexeme], surface: Piece) -> Result<Piece, PatternFault>
    requires { surface.to ≤ length lexemes.now }
    ensures goes { (again : Option ℕ) (h : Hop) (p : Path) →
        GoesOn result (on_behind again (Some (h, p)) surface.single surface.pattern
        (told (drop surface.to lexemes.now)))
        (λ x. hop_from again 0 (joined h p x.pattern) (told (drop x.to lexemes.now))) }
    ensures same { IfOk result (λ x. x ≡ surface) }
{
    if surface.single {
        return Ok(surface);
    }
    Err(unexpected(lexemes, surface.to, 0))
}

/// The surface behind steps, to which further steps may be joined.
pub fn surface_behind(
    alloc: Global,
    lexemes: &[Lexeme],
    from: usize,
    again: Option<u32>,
) -> Result<Piece, PatternFault>
    requires { from ≤ length lexemes.now }
    ensures goes { (h : Hop) (p : Path) →
        GoesOn result (hop_run again 0 (behind h p surface_start) (told (drop from lexemes.now)))
        (λ x. hop_from again 0 (joined h p x.pattern) (told (drop x.to lexemes.now))) }
    ensures size { IfOk result (λ x. x.size ≡ counted (surface_size x.pattern)) }
    ensures on { IfOk result (λ x. (from < x.to) × (x.to ≤ length lexemes.now)) }
{
    match surface_up_to(alloc, lexemes, from, true, again) {
        Ok(surface) => without_choices(lexemes, surface),
        Err(fault) => Err(fault),
    }
}
