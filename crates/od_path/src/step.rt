//! What paths and the steps of hops have in common: one step along an edge, and the turns of a path.
ghost use Rattle.std.specs.Prelude.{◌≡◌, ℕ, ◌+◌, ◌^◌, ◌<◌, ◌≤◌, Bool, true, false, List, [], ◌∷◌, ◌++◌, drop, length, Some, MatchOption, MatchResult, IfOk, OnOk};
ghost use Rattle.od_language.specs.declared.pattern_fault.PatternKind.TheVariants as kind;
ghost use Rattle.od_language.specs.declared.lexeme.LexKind.TheVariants as lexeme;
ghost use Rattle.od_language.specs.Depth.{is_bad_range};
ghost use Rattle.od_language.specs.Machine.{GoesOn};
ghost use Rattle.od_pattern.specs.declared.path.Path.{Path};
ghost use Rattle.od_pattern.specs.declared.path.Path.TheVariants as path_value;
ghost use Rattle.od_pattern.specs.declared.pattern.Value.TheVariants as asked;
ghost use Rattle.od_syntax.specs.PathMachine.{Around, label, part, edge};
ghost use Rattle.od_syntax.specs.Sizes.{counted as counted_size, path_size, repeat_size};
ghost use Rattle.od_syntax.specs.StepsMachine as steps;
ghost use Rattle.od_syntax.specs.Told.{told};
ghost use Rattle.od_path.specs.Machine.{run};
ghost use Rattle.od_path.specs.Steps.{steps_run};

use crate::ahead::{bad, next, unexpected};
use crate::size::repeated;
use od_language::lexeme::{LexKind, Lexeme};
use od_language::limits::EXPRESSION_BYTES;
use od_language::pattern_fault::{PatternFault, PatternKind};
use od_pattern::path::Path;
use od_pattern::pattern::Value;
use od_text::list::List;
use od_text::text::Copied;
use sqlite_items::Boxed;
use std::alloc::Global;

/// A path that was read.
#[derive(Debug, Drop)]
pub struct Found {
    pub path: Path,
    /// Its size as it is counted: up to one above the greatest that a pattern may have.
    pub size: usize,
    /// The place behind it, in lexemes from 0.
    pub to: usize,
}

/// One more path at the end of a list.
pub fn push(list: &mut List<Path>, p: Path) -> Result<(), PatternFault>
    ensures { MatchResult result (λ _. list.new ≡ list.old ++ p ∷ [])
        (λ e. e ≡ PatternFault.NoMemory) }
{
    list.push(p)?;
    Ok(())
}

/// Two paths as a list.
pub fn pair(alloc: Global, first: Path, second: Path) -> Result<List<Path>, PatternFault>
    ensures { MatchResult result (λ l. l ≡ first ∷ second ∷ []) (λ e. e ≡ PatternFault.NoMemory) }
{
    let mut list = List::new(alloc);
    push(&mut list, first)?;
    push(&mut list, second)?;
    Ok(list)
}

/// The label behind `>` or `<`.
#[tactic(auto, using(crate::proofs::StepMoves::no_label))]
fn label(alloc: Global, lexemes: &[Lexeme], from: usize) -> Result<Value, PatternFault>
    ensures on { OnOk result (from < length lexemes.now) }
    ensures goes { (d : ℕ) (b : Bool) (a s : List Path) (k : Around) →
        GoesOn result (run d (label b a s k) (drop from lexemes.now))
        (λ v. run d (part (edge b (Some v)) a s k) (drop (from + 1) lexemes.now)) }
    ensures steps { (d : ℕ) (b : Bool) (s : List Path) →
        GoesOn result (steps_run d (steps.label b s) (told (drop from lexemes.now)))
        (λ v. steps_run d (steps.part (edge b (Some v)) s) (told (drop (from + 1) lexemes.now))) }
{
    match next(lexemes, from) {
        Some(x) => match &x.kind {
            LexKind::Word(text) => Ok(Value::Plain(text.copy(alloc)?)),
            LexKind::Quoted(text) => Ok(Value::Plain(text.copy(alloc)?)),
            LexKind::Regex(text) => {
                if text.get().len() > EXPRESSION_BYTES {
                    return Err(bad(x.at, PatternKind::RegexLong));
                }
                Ok(Value::Regex(text.copy(alloc)?))
            }
            _ => Err(unexpected(lexemes, from)),
        },
        None => Err(unexpected(lexemes, from)),
    }
}

/// An edge from its governor, behind `>`.
pub fn along(alloc: Global, lexemes: &[Lexeme], from: usize) -> Result<Found, PatternFault>
    requires { from < 2 ^ 63 }
    ensures goes { (d : ℕ) (a s : List Path) (k : Around) →
        GoesOn result (run d (label true a s k) (drop from lexemes.now))
        (λ x. run d (part x.path a s k) (drop x.to lexemes.now)) }
    ensures steps { (d : ℕ) (s : List Path) →
        GoesOn result (steps_run d (steps.label true s) (told (drop from lexemes.now)))
        (λ x. steps_run d (steps.part x.path s) (told (drop x.to lexemes.now))) }
    ensures on { IfOk result (λ x. (from < x.to) × (x.to ≤ length lexemes.now)) }
    ensures size { IfOk result (λ x. x.size ≡ counted_size (path_size x.path)) }
{
    let value = label(alloc, lexemes, from)?;
    Ok(Found {
        path: Path::Along(Some(value)),
        size: 1,
        to: from + 1,
    })
}

/// An edge from its dependent, behind `<`.
pub fn against(alloc: Global, lexemes: &[Lexeme], from: usize) -> Result<Found, PatternFault>
    requires { from < 2 ^ 63 }
    ensures goes { (d : ℕ) (a s : List Path) (k : Around) →
        GoesOn result (run d (label false a s k) (drop from lexemes.now))
        (λ x. run d (part x.path a s k) (drop x.to lexemes.now)) }
    ensures steps { (d : ℕ) (s : List Path) →
        GoesOn result (steps_run d (steps.label false s) (told (drop from lexemes.now)))
        (λ x. steps_run d (steps.part x.path s) (told (drop x.to lexemes.now))) }
    ensures on { IfOk result (λ x. (from < x.to) × (x.to ≤ length lexemes.now)) }
    ensures size { IfOk result (λ x. x.size ≡ counted_size (path_size x.path)) }
{
    let value = label(alloc, lexemes, from)?;
    Ok(Found {
        path: Path::Against(Some(value)),
        size: 1,
        to: from + 1,
    })
}

/// So many turns of a path, behind their quantifier.
#[tactic(auto, using(crate::proofs::Sizes::repeat_sized, crate::proofs::Sizes::counted_small))]
pub fn repeat(
    alloc: Global,
    body: Found,
    least: u32,
    most: Option<u32>,
) -> Result<Found, PatternFault>
    requires { (body.to < 2 ^ 63) × (body.size ≡ counted_size (path_size body.path)) }
    ensures { MatchResult result
        (λ x. (x.path ≡ path_value.Repeat body.path least most) × (x.to ≡ body.to + 1) × (x.size ≡ counted_size (path_size x.path)))
        (λ e. e ≡ PatternFault.NoMemory) }
{
    let Found { path, size, to } = body;
    let size = repeated(least, most, size);
    let path = Path::Repeat(Boxed::new(alloc, path)?, least, most);
    Ok(Found {
        path,
        size,
        to: to + 1,
    })
}

/// Whether the least is above the most, or the most is 0.
pub fn is_bad(least: u32, most: Option<u32>) -> bool
    ensures { result ≡ is_bad_range least most }
{
    match most {
        None => false,
        Some(most) => most == 0 || most < least,
    }
}
