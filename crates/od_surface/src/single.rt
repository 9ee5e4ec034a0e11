//! The atoms of a surface pattern that have no pattern inside.
ghost use Rattle.std.specs.Prelude.{◌≡◌, ℕ, ◌+◌, ◌-◌, ◌<◌, ◌≤◌, Bool, List, [], ◌∷◌, ◌++◌, drop, length, Option, Some, None, Ok, Err, MatchResult, IfOk};
ghost use Rattle.std.specs.List.{list_all};
ghost use Rattle.od_pattern.specs.declared.pattern.Constraint.{Constraint};
ghost use Rattle.od_pattern.specs.declared.pattern.Field.TheVariants as field;
ghost use Rattle.od_pattern.specs.declared.pattern.Surface.{Surface};
ghost use Rattle.od_pattern.specs.declared.pattern.Surface.TheVariants as surface;
ghost use Rattle.od_pattern.specs.declared.pattern.Value.TheVariants as asked;
ghost use Rattle.od_pattern.specs.Nullable.{is_nullable};
ghost use Rattle.od_language.specs.declared.lexeme.Lexeme.{Lexeme};
ghost use Rattle.od_language.specs.declared.lexeme.LexKind.TheVariants as lexeme;
ghost use Rattle.od_language.specs.Fields.{compared_text};
ghost use Rattle.od_language.specs.Identifier.{is_identifier, begins_identifier, in_identifier};
ghost use Rattle.od_language.specs.Machine.{GoesOn};
ghost use Rattle.od_syntax.specs.Sizes.{counted, surface_size};
ghost use Rattle.od_syntax.specs.SurfaceMachine.{Around, atom, name, look, looked, part, norm};
ghost use Rattle.od_surface.specs.Reading.{run};

use crate::lexemes::{Places, next, unexpected};
use caseless::default_case_fold_str;
use od_language::lexeme::{LexKind, Lexeme};
use od_language::limits::IDENTIFIER_BYTES;
use od_language::pattern_fault::PatternFault;
use od_lex::constraint_at;
use od_pattern::pattern::{Constraint, Field, Surface, Value};
use od_text::list::List;
use od_text::text::{Copied, Text};
use std::alloc::Global;

/// A pattern that was read.
#[derive(Debug, Drop)]
pub struct Found {
    pub pattern: Surface,
    /// Whether it may match no token.
    pub nullable: bool,
    /// Its size, counted to one more than a pattern may have.
    pub size: u32,
    /// The number of the lexeme behind it, from 0.
    pub to: usize,
}

pub fn read(pattern: Surface, nullable: bool, size: u32, to: usize) -> Found
    ensures { (result.pattern ≡ pattern) × (result.nullable ≡ nullable) × (result.size ≡ size) × (result.to ≡ to) }
{
    Found {
        pattern,
        nullable,
        size,
        to,
    }
}

pub fn copied(alloc: Global, text: &Text) -> Result<Text, PatternFault>
    ensures { MatchResult result (λ t. t ≡ text.now) (λ e. e ≡ PatternFault.NoMemory) }
{
    Ok(text.copy(alloc)?)
}

/// A token whose norm fits the value.
pub fn of_norm(value: Value) -> Surface
    ensures { result ≡ norm value }
{
    Surface::Token(Constraint::Is(Field::Norm, value))
}

/// A token with this norm, which is folded.
pub fn plain(alloc: Global, text: &Text) -> Result<Surface, PatternFault>
    ensures { MatchResult result
        (λ p. p ≡ norm (asked.Plain (compared_text field.Norm text.now)))
        (λ e. e ≡ PatternFault.NoMemory) }
{
    let folded = default_case_fold_str(alloc, text.get())?;
    Ok(of_norm(Value::Plain(Text::from_string(folded))))
}

/// One more part at the end: a token with this norm, which is folded.
pub fn push_plain(alloc: Global, list: &mut List<Surface>, text: &Text) -> Result<(), PatternFault>
    ensures { MatchResult result
        (λ _. list.new ≡ list.old ++ norm (asked.Plain (compared_text field.Norm text.now)) ∷ [])
        (λ e. e ≡ PatternFault.NoMemory) }
{
    let folded = default_case_fold_str(alloc, text.get())?;
    list.push(of_norm(Value::Plain(Text::from_string(folded))))?;
    Ok(())
}

fn begins_name(b: u8) -> bool
    ensures { result ≡ begins_identifier b }
{
    b.is_ascii_alphabetic() || b == b'_'
}

fn in_name(b: u8) -> bool
    ensures { result ≡ in_identifier b }
{
    b.is_ascii_alphanumeric() || b == b'_'
}

fn all_in_name(bytes: &[u8]) -> bool
    ensures { result ≡ list_all in_identifier bytes.now }
{
    match bytes {
        [] => true,
        [first, rest @ ..] => in_name(*first) && all_in_name(rest),
    }
}

/// Whether a text is an identifier.
fn is_name(bytes: &[u8]) -> bool
    ensures { result ≡ is_identifier bytes.now }
{
    match bytes {
        [] => false,
        [first, rest @ ..] => {
            begins_name(*first) && rest.len() < IDENTIFIER_BYTES && all_in_name(rest)
        }
    }
}

/// A constraint that stands for a token, from its `[` on.
pub fn token(
    alloc: Global,
    lexemes: &[Lexeme],
    from: usize,
    depth: usize,
    places: Places,
) -> Result<Found, PatternFault>
    ensures goes { (x : Lexeme) (l : List Lexeme) → drop from lexemes.now ≡ x ∷ l →
        x.kind ≡ lexeme.SquareOpen → (a s : List Surface) (k : Around) →
        GoesOn result (run places depth (atom a s k) (drop from lexemes.now))
        (λ x. run places depth (part x.pattern a s k) (drop x.to lexemes.now)) }
    ensures nullable { IfOk result (λ x. x.nullable ≡ is_nullable x.pattern) }
    ensures size { IfOk result (λ x. x.size ≡ counted (surface_size x.pattern)) }
    ensures on { IfOk result (λ x. (from < x.to) × (x.to ≤ length lexemes.now)) }
{
    match constraint_at(alloc, lexemes, from, depth) {
        Ok((c, to)) => Ok(Found {
            pattern: Surface::Token(c),
            nullable: false,
            size: 1,
            to,
        }),
        Err(e) => Err(e),
    }
}

/// The constraint of a look, from its `[` on.
fn constraint_seen(
    alloc: Global,
    lexemes: &[Lexeme],
    from: usize,
    depth: usize,
    places: Places,
) -> Result<(Constraint, usize), PatternFault>
    ensures goes { (x : Lexeme) (l : List Lexeme) → drop from lexemes.now ≡ x ∷ l →
        x.kind ≡ lexeme.SquareOpen → (w : Bool × Bool) (a s : List Surface) (k : Around) →
        GoesOn result (run places depth (look w a s k) (drop from lexemes.now))
        (λ x. run places depth (looked w x.0 a s k) (drop x.1 lexemes.now)) }
    ensures on { IfOk result (λ x. (from < x.1) × (x.1 ≤ length lexemes.now)) }
{
    match constraint_at(alloc, lexemes, from, depth) {
        Ok((c, to)) => Ok((c, to)),
        Err(e) => Err(e),
    }
}

/// The constraint of a look.
fn seen(
    alloc: Global,
    lexemes: &[Lexeme],
    from: usize,
    depth: usize,
    places: Places,
) -> Result<(Constraint, usize), PatternFault>
    ensures goes { (w : Bool × Bool) (a s : List Surface) (k : Around) →
        GoesOn result (run places depth (look w a s k) (drop from lexemes.now))
        (λ x. run places depth (looked w x.0 a s k) (drop x.1 lexemes.now)) }
    ensures on { IfOk result (λ x. (from < x.1) × (x.1 ≤ length lexemes.now)) }
{
    match next(lexemes, from) {
        Some(x) => match x.kind {
            LexKind::SquareOpen => constraint_seen(alloc, lexemes, from, depth, places),
            _ => Err(unexpected(lexemes, from, places.behind)),
        },
        None => Err(unexpected(lexemes, from, places.behind)),
    }
}

/// The end of a look.
fn look_close(lexemes: &[Lexeme], from: usize, places: Places) -> Result<usize, PatternFault>
    ensures on { IfOk result (λ to. (from < to) × (to ≤ length lexemes.now)) }
    ensures goes { (d : ℕ) (w : Bool × Bool) (c : Constraint) (a s : List Surface) (k : Around) →
        GoesOn result (run places d (looked w c a s k) (drop from lexemes.now))
        (λ to. run places (d - 1) (part (surface.Look w.0 w.1 c) a s k) (drop to lexemes.now)) }
{
    match next(lexemes, from) {
        Some(x) => match x.kind {
            LexKind::RoundClose => Ok(from + 1),
            _ => Err(unexpected(lexemes, from, places.behind)),
        },
        None => Err(unexpected(lexemes, from, places.behind)),
    }
}

/// A look, from behind its opening on.
pub fn looking(
    alloc: Global,
    lexemes: &[Lexeme],
    from: usize,
    depth: usize,
    places: Places,
    ahead: bool,
    positive: bool,
) -> Result<Found, PatternFault>
    ensures goes { (a s : List Surface) (k : Around) →
        GoesOn result (run places depth (look (ahead, positive) a s k) (drop from lexemes.now))
        (λ x. run places (depth - 1) (part x.pattern a s k) (drop x.to lexemes.now)) }
    ensures nullable { IfOk result (λ x. x.nullable ≡ is_nullable x.pattern) }
    ensures size { IfOk result (λ x. x.size ≡ counted (surface_size x.pattern)) }
    ensures on { IfOk result (λ x. (from < x.to) × (x.to ≤ length lexemes.now)) }
{
    let (constraint, end) = seen(alloc, lexemes, from, depth, places)?;
    let to = look_close(lexemes, end, places)?;
    let pattern = Surface::Look {
        ahead,
        positive,
        constraint,
    };
    Ok(read(pattern, true, 1, to))
}

/// The label behind `@`.
pub fn label(
    alloc: Global,
    lexemes: &[Lexeme],
    from: usize,
    places: Places,
) -> Result<Found, PatternFault>
    ensures goes { (d : ℕ) (a s : List Surface) (k : Around) →
        GoesOn result (run places d (name a s k) (drop from lexemes.now))
        (λ x. run places d (part x.pattern a s k) (drop x.to lexemes.now)) }
    ensures nullable { IfOk result (λ x. x.nullable ≡ is_nullable x.pattern) }
    ensures size { IfOk result (λ x. x.size ≡ counted (surface_size x.pattern)) }
    ensures on { IfOk result (λ x. (from < x.to) × (x.to ≤ length lexemes.now)) }
{
    match next(lexemes, from) {
        Some(x) => match &x.kind {
            LexKind::Word(text) => {
                if is_name(text.get().as_bytes()) {
                    let pattern = Surface::Label(copied(alloc, text)?);
                    return Ok(read(pattern, false, 1, from + 1));
                }
                Err(unexpected(lexemes, from, places.behind))
            }
            _ => Err(unexpected(lexemes, from, places.behind)),
        },
        None => Err(unexpected(lexemes, from, places.behind)),
    }
}
