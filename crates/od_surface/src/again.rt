//! Captures that are named again.
ghost use Rattle.std.specs.Prelude.{◌≡◌, ℕ, ◌+◌, List, [], ◌∷◌, ◌++◌, IfOk, MatchResult};
ghost use Rattle.od_syntax.specs.Rules.{is_one_of};
ghost use Rattle.od_surface.specs.Again.{Ascends, Knows, Marks, named_behind, opens_again};

use crate::lexemes::next;
use od_language::lexeme::{LexKind, Lexeme};
use od_language::pattern_fault::PatternFault;
use od_text::text::Text;
use std::alloc::Global;
use std::collections::HashSet;

/// Whether a name was seen before; from now on it was.
pub fn seen_before(
    alloc: Global,
    names: &mut HashSet<String>,
    name: &Text,
) -> Result<bool, PatternFault>
    ensures { MatchResult result
        (λ seen. (before : List (List ℕ)) → Knows names.old before →
        (seen ≡ is_one_of before name.now) × Knows names.new (before ++ name.now ∷ []))
        (λ e. e ≡ PatternFault.NoMemory) }
{
    let seen = names.contains(name.get());
    let Ok(key) = String::from_str(alloc, name.get()) else {
        return Err(PatternFault::NoMemory);
    };
    let Ok(_) = names.insert(key) else {
        return Err(PatternFault::NoMemory);
    };
    Ok(seen)
}

/// Whether a lexeme opens a capture whose name was seen before; from now on it was.
fn opens_seen(alloc: Global, names: &mut HashSet<String>, x: &Lexeme) -> Result<bool, PatternFault>
    ensures { MatchResult result
        (λ seen. (before : List (List ℕ)) → Knows names.old before →
        (seen ≡ opens_again before x.now.kind) × Knows names.new (named_behind before x.now.kind))
        (λ e. e ≡ PatternFault.NoMemory) }
{
    match &x.kind {
        LexKind::NameOpen(name) => seen_before(alloc, names, name),
        _ => Ok(false),
    }
}

/// The place of the first capture whose name stands before it already, if there is one.
#[tactic(auto, using(crate::proofs::Named::known_more, crate::proofs::Named::known_again, crate::proofs::Named::known_none, crate::proofs::Named::known_first))]
pub fn first_again(alloc: Global, lexemes: &[Lexeme]) -> Result<Option<u32>, PatternFault>
    requires { Ascends lexemes.now }
    ensures { MatchResult result (λ again. Marks again [] lexemes.now)
        (λ e. e ≡ PatternFault.NoMemory) }
{
    let mut names = HashSet::new(alloc);
    let mut i = 0;
    while let Some(x) = next(lexemes, i) {
        if opens_seen(alloc, &mut names, x)? {
            return Ok(Some(x.at));
        }
        i += 1;
    }
    Ok(None)
}
