//! A constraint, read from lexemes.
ghost use Rattle.std.specs.Prelude.{◌≡◌, ℕ, ◌+◌, ◌-◌, ◌^◌, ◌<◌, ◌≤◌, List, [], ◌∷◌, ◌++◌, drop, length, Option, Some, None, Ok, take, MatchOption, MatchResult, MatchBool, IfOk, IsTrue, ◌↔◌, suc};
ghost use Rattle.od_language.specs.declared.pattern_fault.PatternKind.{PatternKind};
ghost use Rattle.od_language.specs.declared.pattern_fault.PatternKind.TheVariants as kind;
ghost use Rattle.od_pattern.specs.declared.pattern.Value.TheVariants as asked;
ghost use Rattle.od_language.specs.declared.lexeme.LexKind.TheVariants as lexeme;
ghost use Rattle.od_language.specs.declared.lexeme.Lexeme.{Lexeme};
ghost use Rattle.od_pattern.specs.declared.pattern.Constraint.{Constraint};
ghost use Rattle.od_pattern.specs.declared.pattern.Constraint.TheVariants as constraint;
ghost use Rattle.od_language.specs.Fields.{field_named, compared_text, is_text};
ghost use Rattle.od_language.specs.Written.{written, IsWritable};
ghost use Rattle.od_language.specs.declared.lexeme.LexKind.{LexKind};
ghost use Rattle.od_language.specs.Depth.{depth_behind, depth_before, BreaksRule};
ghost use Rattle.od_language.specs.Alphabet.{plain, kinds, IsEnded};
ghost use Rattle.od_language.specs.Answers.{IfBad, Gives, Refuses};
ghost use Rattle.od_language.specs.Constraints.{IsConstraintRead, IsConstraintFault, OneConstraint};
ghost use Rattle.od_language.specs.FirstFault.{Keeps};
ghost use Rattle.od_language.specs.Machine.{GoesOn};
ghost use Rattle.od_language.specs.ConstraintMachine.{Open, square, round, start, first, operand, named, equals, after, both, either, negated};
ghost use Rattle.od_lex.specs.Machine.{NoAnd, NoOr, NoNot, run, place_of, Makes, IsAhead, IsReadFrom};

use caseless::default_case_fold_str;
use od_language::lexeme::{LexKind, Lexeme};
use od_language::limits::{EXPRESSION_BYTES, OPEN_BRACKETS};
use od_language::pattern_fault::{PatternFault, PatternKind};
use od_pattern::pattern::{Constraint, Field, Value};
use od_text::text::{Copied, Text};
use sqlite_items::Boxed;
use std::alloc::Global;

/// The lexeme at a place.
fn next(lexemes: &[Lexeme], i: usize) -> Option<&Lexeme>
    ensures { MatchOption result (drop i lexemes.now ≡ [])
        (λ x. (drop i lexemes.now ≡ x.now ∷ drop (i + 1) lexemes.now) × (i < length lexemes.now)) }
{
    lexemes.get(i)
}

/// The lexeme at a place is not expected there.
fn unexpected(lexemes: &[Lexeme], i: usize) -> PatternFault
    ensures { result ≡ PatternFault.Bad (place_of (drop i lexemes.now)) kind.Expected }
{
    let at = match next(lexemes, i) {
        Some(x) => x.at,
        None => 0,
    };
    PatternFault::Bad {
        at,
        kind: PatternKind::Expected,
    }
}

fn negate(alloc: Global, c: Constraint) -> Result<Constraint, PatternFault>
    ensures { Makes result (constraint.Not c) }
{
    Ok(Constraint::Not(Boxed::new(alloc, c)?))
}

fn join_and(alloc: Global, a: Constraint, b: Constraint) -> Result<Constraint, PatternFault>
    ensures { Makes result (constraint.And a b) }
{
    Ok(Constraint::And(Boxed::new(alloc, a)?, Boxed::new(alloc, b)?))
}

fn join_or(alloc: Global, a: Constraint, b: Constraint) -> Result<Constraint, PatternFault>
    ensures { Makes result (constraint.Or a b) }
{
    Ok(Constraint::Or(Boxed::new(alloc, a)?, Boxed::new(alloc, b)?))
}

fn is_named(name: &Text, field: &str) -> bool
    ensures { result ≡ is_text name.now field.now }
{
    name.get() == field
}

/// The field of a name.
#[tactic(auto, unfolding(od_language::specs::Fields::field_named))]
fn field_of(name: &Text) -> Option<Field>
    ensures { result ≡ field_named name.now }
{
    if is_named(name, "word") {
        Some(Field::Word)
    } else if is_named(name, "norm") {
        Some(Field::Norm)
    } else if is_named(name, "lemma") {
        Some(Field::Lemma)
    } else if is_named(name, "upos") {
        Some(Field::Upos)
    } else if is_named(name, "tag") {
        Some(Field::Tag)
    } else if is_named(name, "entity") {
        Some(Field::Entity)
    } else if is_named(name, "chunk") {
        Some(Field::Chunk)
    } else if is_named(name, "incoming") {
        Some(Field::Incoming)
    } else if is_named(name, "outgoing") {
        Some(Field::Outgoing)
    } else {
        None
    }
}

/// The `!` before an operand, and the place behind them.
fn negations(lexemes: &[Lexeme], from: usize) -> (usize, usize)
    ensures on { from ≤ result.1 }
    ensures stops { NoNot (drop result.1 lexemes.now) }
    ensures goes { (d n : ℕ) (a o : Option Constraint) (k : Open) →
        run d (operand n a o k) (drop from lexemes.now) ≡ run d (operand (n + result.0) a o k) (drop result.1 lexemes.now) }
{
    let mut count = 0;
    let mut i = from;
    while let Some(x) = next(lexemes, i) {
        match x.kind {
            LexKind::Not => {
                count += 1;
                i += 1;
            }
            _ => return (count, i),
        }
    }
    (count, i)
}

/// Behind the `=`.
fn value(
    alloc: Global,
    lexemes: &[Lexeme],
    from: usize,
    field: Field,
) -> Result<Value, PatternFault>
    ensures { (d n : ℕ) (a o : Option Constraint) (k : Open) →
        GoesOn result (run d (equals field n a o k) (drop from lexemes.now))
        (λ v. run d (after (both a (negated n (constraint.Is field v))) o k) (drop (from + 1) lexemes.now)) }
{
    match next(lexemes, from) {
        Some(x) => match &x.kind {
            LexKind::Word(text) => plain(alloc, field, text),
            LexKind::Quoted(text) => plain(alloc, field, text),
            LexKind::Regex(text) => {
                if text.get().len() > EXPRESSION_BYTES {
                    return Err(PatternFault::Bad {
                        at: x.at,
                        kind: PatternKind::RegexLong,
                    });
                }
                Ok(Value::Regex(text.copy(alloc)?))
            }
            _ => Err(unexpected(lexemes, from)),
        },
        None => Err(unexpected(lexemes, from)),
    }
}

/// A plain value of a field; for norms it is folded.
fn plain(alloc: Global, field: Field, text: &Text) -> Result<Value, PatternFault>
    ensures { MatchResult result (λ v. v ≡ asked.Plain (compared_text field text.now))
        (λ e. e ≡ PatternFault.NoMemory) }
{
    match field {
        Field::Norm => {
            let folded = default_case_fold_str(alloc, text.get())?;
            Ok(Value::Plain(Text::from_string(folded)))
        }
        _ => Ok(Value::Plain(text.copy(alloc)?)),
    }
}

/// As often `not` as there were `!`.
#[tactic(auto, using(crate::proofs::Moves::negated_next))]
fn negated_times(alloc: Global, c: Constraint, count: usize) -> Result<Constraint, PatternFault>
    ensures { Makes result (negated count c) }
{
    let mut whole = c;
    for _k in 0..count {
        whole = negate(alloc, whole)?;
    }
    Ok(whole)
}

/// Behind a field's name.
fn field_test(
    alloc: Global,
    lexemes: &[Lexeme],
    from: usize,
    f: Field,
) -> Result<(Constraint, usize), PatternFault>
    requires { from < 2 ^ 63 }
    ensures on { IfOk result (λ x. from < x.1) }
    ensures goes { (d n : ℕ) (a o : Option Constraint) (k : Open) →
        GoesOn result (run d (named f n a o k) (drop from lexemes.now))
        (λ x. run d (after (both a (negated n x.0)) o k) (drop x.1 lexemes.now)) }
{
    match next(lexemes, from) {
        Some(x) => match x.kind {
            LexKind::Equal => {
                let wanted = value(alloc, lexemes, from + 1, f)?;
                Ok((Constraint::Is(f, wanted), from + 2))
            }
            _ => Err(unexpected(lexemes, from)),
        },
        None => Err(unexpected(lexemes, from)),
    }
}

/// Behind what stands in brackets.
fn round_close(lexemes: &[Lexeme], from: usize) -> Result<usize, PatternFault>
    ensures on { IfOk result (λ to. from < to) }
    ensures goes { (d : ℕ) (c : Constraint) (n : ℕ) (a o : Option Constraint) (k : Open) →
        NoAnd (drop from lexemes.now) → NoOr (drop from lexemes.now) →
        GoesOn result (run d (after c None (round n a o k)) (drop from lexemes.now))
        (λ to. run (d - 1) (after (both a (negated n c)) o k) (drop to lexemes.now)) }
{
    match next(lexemes, from) {
        Some(x) => match x.kind {
            LexKind::RoundClose => Ok(from + 1),
            _ => Err(unexpected(lexemes, from)),
        },
        None => Err(unexpected(lexemes, from)),
    }
}

/// Whether an `and` goes on.
fn is_and(lexemes: &[Lexeme], i: usize) -> bool
    ensures { MatchBool result (IsAhead lexeme.And i lexemes.now) (NoAnd (drop i lexemes.now)) }
{
    match next(lexemes, i) {
        Some(x) => match x.kind {
            LexKind::And => true,
            _ => false,
        },
        None => false,
    }
}

/// Whether an `or` goes on.
fn is_or(lexemes: &[Lexeme], i: usize) -> bool
    ensures { MatchBool result (IsAhead lexeme.Or i lexemes.now) (NoOr (drop i lexemes.now)) }
{
    match next(lexemes, i) {
        Some(x) => match x.kind {
            LexKind::Or => true,
            _ => false,
        },
        None => false,
    }
}

/// An operand: its `!`, and then brackets or a field and its value.
#[cycle(constraint)]
fn unary(
    alloc: Global,
    lexemes: &[Lexeme],
    from: usize,
    depth: usize,
) -> Result<(Constraint, usize), PatternFault>
    ensures goes { (a o : Option Constraint) (k : Open) →
        GoesOn result (run depth (operand 0 a o k) (drop from lexemes.now))
        (λ x. run depth (after (both a x.0) o k) (drop x.1 lexemes.now)) }
    ensures on { IfOk result (λ x. from < x.1) }
{
    let (count, i) = negations(lexemes, from);
    let (c, to) = bare_operand(alloc, lexemes, i, depth)?;
    Ok((negated_times(alloc, c, count)?, to))
}

/// An operand without its `!`.
#[cycle(constraint)]
fn bare_operand(
    alloc: Global,
    lexemes: &[Lexeme],
    from: usize,
    depth: usize,
) -> Result<(Constraint, usize), PatternFault>
    ensures goes { NoNot (drop from lexemes.now) → (n : ℕ) (a o : Option Constraint) (k : Open) →
        GoesOn result (run depth (operand n a o k) (drop from lexemes.now))
        (λ x. run depth (after (both a (negated n x.0)) o k) (drop x.1 lexemes.now)) }
    ensures on { IfOk result (λ x. from < x.1) }
{
    match next(lexemes, from) {
        Some(x) => match &x.kind {
            LexKind::RoundOpen => {
                if depth >= OPEN_BRACKETS {
                    return Err(PatternFault::Bad {
                        at: x.at,
                        kind: PatternKind::TooDeep,
                    });
                }
                grouped(alloc, lexemes, from + 1, depth + 1)
            }
            LexKind::Word(name) => match field_of(name) {
                Some(f) => field_test(alloc, lexemes, from + 1, f),
                None => Err(PatternFault::Bad {
                    at: x.at,
                    kind: PatternKind::UnknownField,
                }),
            },
            _ => Err(unexpected(lexemes, from)),
        },
        None => Err(unexpected(lexemes, from)),
    }
}

/// What stands in round brackets, from behind the opening one on.
#[cycle(constraint)]
fn grouped(
    alloc: Global,
    lexemes: &[Lexeme],
    from: usize,
    depth: usize,
) -> Result<(Constraint, usize), PatternFault>
    ensures goes { (n : ℕ) (a o : Option Constraint) (k : Open) →
        GoesOn result (run depth (operand 0 None None (round n a o k)) (drop from lexemes.now))
        (λ x. run (depth - 1) (after (both a (negated n x.0)) o k) (drop x.1 lexemes.now)) }
    ensures on { IfOk result (λ x. from < x.1) }
{
    let (c, end) = alternatives(alloc, lexemes, from, depth)?;
    let to = round_close(lexemes, end)?;
    Ok((c, to))
}

/// Operands joined by `&`.
#[cycle(constraint)]
fn all_of(
    alloc: Global,
    lexemes: &[Lexeme],
    from: usize,
    depth: usize,
) -> Result<(Constraint, usize), PatternFault>
    ensures goes { (o : Option Constraint) (k : Open) →
        GoesOn result (run depth (operand 0 None o k) (drop from lexemes.now))
        (λ x. run depth (after x.0 o k) (drop x.1 lexemes.now)) }
    ensures on { IfOk result (λ x. from < x.1) }
    ensures stops { IfOk result (λ x. NoAnd (drop x.1 lexemes.now)) }
{
    let (mut left, mut i) = unary(alloc, lexemes, from, depth)?;
    while is_and(lexemes, i) {
        let (right, to) = unary(alloc, lexemes, i + 1, depth)?;
        left = join_and(alloc, left, right)?;
        i = to;
    }
    Ok((left, i))
}

/// Parts joined by `|`.
#[cycle(constraint)]
fn alternatives(
    alloc: Global,
    lexemes: &[Lexeme],
    from: usize,
    depth: usize,
) -> Result<(Constraint, usize), PatternFault>
    ensures goes { (k : Open) →
        GoesOn result (run depth (operand 0 None None k) (drop from lexemes.now))
        (λ x. run depth (after x.0 None k) (drop x.1 lexemes.now)) }
    ensures on { IfOk result (λ x. from < x.1) }
    ensures stops { IfOk result (λ x. NoAnd (drop x.1 lexemes.now) × NoOr (drop x.1 lexemes.now)) }
{
    let (mut left, mut i) = all_of(alloc, lexemes, from, depth)?;
    while is_or(lexemes, i) {
        let (right, to) = all_of(alloc, lexemes, i + 1, depth)?;
        left = join_or(alloc, left, right)?;
        i = to;
    }
    Ok((left, i))
}

/// A constraint behind its `[`, where it is not empty.
fn filled(
    alloc: Global,
    lexemes: &[Lexeme],
    from: usize,
    depth: usize,
) -> Result<(Constraint, usize), PatternFault>
    ensures goes { GoesOn result (run depth (operand 0 None None square) (drop from lexemes.now))
        (λ x. Ok (x.0, drop x.1 lexemes.now)) }
    ensures on { IfOk result (λ x. (from < x.1) × (x.1 ≤ length lexemes.now)) }
{
    let (c, end) = alternatives(alloc, lexemes, from, depth)?;
    let to = square_close(lexemes, end)?;
    Ok((c, to))
}

/// A constraint behind its `[`.
fn inside(
    alloc: Global,
    lexemes: &[Lexeme],
    from: usize,
    depth: usize,
) -> Result<(Constraint, usize), PatternFault>
    ensures goes { GoesOn result (run depth first (drop from lexemes.now))
        (λ x. Ok (x.0, drop x.1 lexemes.now)) }
    ensures on { IfOk result (λ x. (from < x.1) × (x.1 ≤ length lexemes.now)) }
{
    match next(lexemes, from) {
        Some(x) => match x.kind {
            LexKind::SquareClose => Ok((Constraint::Any, from + 1)),
            _ => filled(alloc, lexemes, from, depth),
        },
        None => Err(unexpected(lexemes, from)),
    }
}

/// The end of a constraint.
fn square_close(lexemes: &[Lexeme], from: usize) -> Result<usize, PatternFault>
    ensures on { IfOk result (λ to. (from < to) × (to ≤ length lexemes.now)) }
    ensures goes { (d : ℕ) (c : Constraint) → NoAnd (drop from lexemes.now) →
        NoOr (drop from lexemes.now) →
        GoesOn result (run d (after c None square) (drop from lexemes.now))
        (λ to. Ok (c, drop to lexemes.now)) }
{
    match next(lexemes, from) {
        Some(x) => match x.kind {
            LexKind::SquareClose => Ok(from + 1),
            _ => Err(unexpected(lexemes, from)),
        },
        None => Err(unexpected(lexemes, from)),
    }
}

/// A constraint, read from its `[` on.
fn bracketed(
    alloc: Global,
    lexemes: &[Lexeme],
    from: usize,
    depth: usize,
) -> Result<(Constraint, usize), PatternFault>
    ensures goes { GoesOn result (run depth start (drop from lexemes.now))
        (λ x. Ok (x.0, drop x.1 lexemes.now)) }
    ensures on { IfOk result (λ x. (from < x.1) × (x.1 ≤ length lexemes.now)) }
{
    match next(lexemes, from) {
        Some(x) => match x.kind {
            LexKind::SquareOpen => {
                if depth >= OPEN_BRACKETS {
                    return Err(PatternFault::Bad {
                        at: x.at,
                        kind: PatternKind::TooDeep,
                    });
                }
                inside(alloc, lexemes, from + 1, depth + 1)
            }
            _ => Err(unexpected(lexemes, from)),
        },
        None => Err(unexpected(lexemes, from)),
    }
}

/// The constraint at a place where so many brackets are open before it, and the place behind it.
///
/// For parsers that count the open brackets themselves; `parse_constraint` counts them.
pub fn constraint_at(
    alloc: Global,
    lexemes: &[Lexeme],
    from: usize,
    depth: usize,
) -> Result<(Constraint, usize), PatternFault>
    ensures value { IfOk result (λ x. IsReadFrom depth lexemes.now from x.0 x.1) }
    ensures fault { IsEnded plain (drop from lexemes.now) →
        IfBad result (IsConstraintFault depth (drop from lexemes.now)) }
    // What a machine that contains the machine of constraints needs to know.
    ensures goes { GoesOn result (run depth start (drop from lexemes.now))
        (λ x. Ok (x.0, drop x.1 lexemes.now)) }
    ensures on { IfOk result (λ x. (from < x.1) × (x.1 ≤ length lexemes.now)) }
{
    bracketed(alloc, lexemes, from, depth)
}

/// How many brackets are open behind one more lexeme.
fn deeper(depth: usize, kind: &LexKind) -> usize
    requires { depth < 2 ^ 63 }
    ensures value { result ≡ depth_behind depth kind.now }
    ensures most { result ≤ depth + 1 }
{
    match kind {
        LexKind::SquareOpen
        | LexKind::RoundOpen
        | LexKind::NameOpen(_)
        | LexKind::AheadIs
        | LexKind::AheadNot
        | LexKind::BehindIs
        | LexKind::BehindNot => depth + 1,
        LexKind::SquareClose | LexKind::RoundClose => depth.saturating_sub(1),
        _ => depth,
    }
}

/// How many brackets are open before a place.
#[tactic(auto, using(crate::proofs::Moves::depth_more))]
pub fn depth_at(lexemes: &[Lexeme], from: usize) -> usize
    requires { from ≤ length lexemes.now }
    ensures { result ≡ depth_before lexemes.now from }
{
    let mut depth = 0;
    let before = &lexemes[..from];
    for x in before {
        depth = deeper(depth, &x.kind);
    }
    depth
}

/// The constraint at a place of some lexemes, from 0, and the place behind it.
///
/// The lexemes from there on have to end with `End`, as those of `tokens` and `lex` do. A fault has the place in the text
/// of the first lexeme with which no constraint can go on, or which breaks a rule: an expression of more than 200 bytes, or
/// a bracket inside 100 open ones, counted over all lexemes.
pub fn parse_constraint(
    alloc: Global,
    lexemes: &[Lexeme],
    from: usize,
) -> Result<(Constraint, usize), PatternFault>
    requires { IsEnded plain (drop from lexemes.now) }
    // A value is one that the lexemes there begin with, up to the place behind it.
    ensures value { IfOk result
        (λ x. IsReadFrom (depth_before lexemes.now from) lexemes.now from x.0 x.1) }
    // A fault is the first one.
    ensures fault { IfBad result (IsConstraintFault (depth_before lexemes.now from) (drop from lexemes.now)) }
    // Where a value stands, it is the answer, and where there is a first fault, that is, unless memory is refused.
    ensures only_value { (c : Constraint) (count : ℕ) →
        IsConstraintRead (depth_before lexemes.now from) (drop from lexemes.now) c count →
        Gives result c (from + count) }
    ensures only_fault { (at : ℕ) (k : PatternKind) →
        IsConstraintFault (depth_before lexemes.now from) (drop from lexemes.now) at k →
        Refuses result at k }
    // A constraint that is written out reads back as itself, where it keeps the limits.
    ensures reads_back { (c : Constraint) (behind : List LexKind) →
        IsWritable c → kinds plain (drop from lexemes.now) ≡ written c ++ behind →
        Keeps (BreaksRule (depth_before lexemes.now from)) (written c) →
        Gives result c (from + length (written c)) }
    // One of the two always stands, and never both.
    ensures one_answer { OneConstraint (depth_before lexemes.now from) (drop from lexemes.now) }
{
    constraint_at(alloc, lexemes, from, depth_at(lexemes, from))
}
