//! Where a surface of a hop has to end.
ghost use Rattle.std.specs.Prelude.{◌≡◌, ℕ, ◌+◌, ◌-◌, ◌^◌, ◌<◌, ◌≤◌, ◌==◌, ◌&&◌, Bool, true, false, List, [], ◌∷◌, drop, length};
ghost use Rattle.od_language.specs.declared.lexeme.LexKind.TheVariants as lexeme;
ghost use Rattle.od_language.specs.Alphabet.{plain, kinds};
ghost use Rattle.od_language.specs.Depth.{depth_behind};
ghost use Rattle.od_path.specs.Steps.{steps_come};
ghost use Rattle.od_syntax.specs.Told.{in_constraint, leads_to_steps};
ghost use Rattle.od_hop.specs.Ends.{is_bar, bar_comes, ends_here, before_end};

use od_language::lexeme::{LexKind, Lexeme};
use od_path::steps::is_step;
use od_surface::lexemes::next;

/// How many brackets are open behind one more lexeme.
fn deeper(depth: usize, kind: &LexKind) -> usize
    requires { depth < 2 ^ 63 }
    ensures value { result ≡ depth_behind depth kind.now }
    ensures most { result ≤ depth + 1 }
{
    match kind {
        LexKind::SquareOpen
        | LexKind::RoundOpen
        | LexKind::NameOpen(_)
        | LexKind::AheadIs
        | LexKind::AheadNot
        | LexKind::BehindIs
        | LexKind::BehindNot => depth + 1,
        LexKind::SquareClose | LexKind::RoundClose => depth.saturating_sub(1),
        _ => depth,
    }
}

/// Whether a constraint is open behind one more lexeme.
fn constrained(within: bool, kind: &LexKind) -> bool
    ensures { result ≡ in_constraint within kind.now }
{
    match kind {
        LexKind::SquareOpen => true,
        LexKind::SquareClose => false,
        _ => within,
    }
}

/// Whether a lexeme outside constraints is a `(`.
fn is_bracket(within: bool, kind: &LexKind) -> bool
    ensures { result ≡ true → (within ≡ false) × (kind.now ≡ lexeme.RoundOpen) }
{
    match kind {
        LexKind::RoundOpen => !within,
        _ => false,
    }
}

/// Whether a `|` comes.
fn is_choice(lexemes: &[Lexeme], i: usize) -> bool
    ensures { result ≡ bar_comes (drop i lexemes.now) }
{
    match next(lexemes, i) {
        Some(x) => match x.kind {
            LexKind::Or => true,
            _ => false,
        },
        None => false,
    }
}

/// Whether a `|` comes outside brackets, behind steps.
fn is_bar_outside(lexemes: &[Lexeme], i: usize, narrow: bool, depth: usize) -> bool
    ensures { result ≡ (narrow && (depth == 0 && bar_comes (drop i lexemes.now))) }
{
    narrow && depth == 0 && is_choice(lexemes, i)
}

/// Whether steps come, where it is known or not that no bracket opens any here.
#[tactic(auto, using(crate::proofs::Cuts::clear_comes))]
fn are_steps(lexemes: &[Lexeme], i: usize, clear: bool) -> bool
    requires { clear ≡ true → leads_to_steps (kinds plain (drop i lexemes.now)) ≡ false }
    ensures { result ≡ steps_come (drop i lexemes.now) }
{
    if clear {
        return false;
    }
    is_step(lexemes, i)
}

/// Whether a surface has to end before a lexeme.
fn has_to_end(
    lexemes: &[Lexeme],
    i: usize,
    narrow: bool,
    within: bool,
    depth: usize,
    clear: bool,
) -> bool
    requires { clear ≡ true → leads_to_steps (kinds plain (drop i lexemes.now)) ≡ false }
    ensures { result ≡ ends_here narrow within depth (drop i lexemes.now) }
{
    if within {
        return false;
    }
    is_bar_outside(lexemes, i, narrow, depth) || are_steps(lexemes, i, clear)
}

/// The number of the lexeme before which a surface has to end that begins at a place, or how many
/// lexemes there are: where steps come outside constraints, and, if the surface is to be `narrow`,
/// as behind steps, where a `|` comes outside brackets.
///
/// Of brackets in a row the first tells whether they open steps, so none is looked at twice.
#[tactic(auto, using(crate::proofs::Cuts::on_by, crate::proofs::Cuts::ends_by, crate::proofs::Cuts::ends_none, crate::proofs::Cuts::clear_on))]
pub fn surface_end(lexemes: &[Lexeme], from: usize, narrow: bool) -> usize
    requires { from ≤ length lexemes.now }
    ensures is { result ≡ from + before_end narrow false 0 (drop from lexemes.now) }
    ensures on { (from ≤ result) × (result ≤ length lexemes.now) }
{
    let mut i = from;
    let mut within = false;
    let mut depth = 0;
    let mut clear = false;
    while let Some(x) = next(lexemes, i) {
        if has_to_end(lexemes, i, narrow, within, depth, clear) {
            return i;
        }
        clear = is_bracket(within, &x.kind);
        depth = deeper(depth, &x.kind);
        within = constrained(within, &x.kind);
        i += 1;
    }
    i
}
