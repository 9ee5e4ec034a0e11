//! Pairs of texts, and whether they are read as the same.
ghost use Rattle.std.specs.Prelude.{◌<◌, ◌^◌, length};

use od_hop::parse_hop;
use od_lex::{lex, parse_constraint};
use od_surface::parse_surface;
use od_text::text::NoMemory;
use std::alloc::Global;
use std::test::Fail;

/// What a text is to be.
#[derive(Clone, Copy, Debug)]
enum Form {
    Constraint,
    Surface,
    Hop,
}

fn constraint(alloc: Global, text: &str) -> Result<Option<String>, NoMemory>
    requires { length text.now < 2 ^ 20 }
{
    let read = lex(alloc, text)?;
    match parse_constraint(alloc, &read.lexemes, 0) {
        Ok((constraint, _)) => Ok(Some(format!(in alloc; "{constraint:?}")?)),
        Err(_) => Ok(None),
    }
}

fn surface(alloc: Global, text: &str) -> Result<Option<String>, NoMemory>
    requires { length text.now < 2 ^ 20 }
{
    match parse_surface(alloc, text) {
        Ok(pattern) => Ok(Some(format!(in alloc; "{pattern:?}")?)),
        Err(_) => Ok(None),
    }
}

fn hop(alloc: Global, text: &str) -> Result<Option<String>, NoMemory>
    requires { length text.now < 2 ^ 20 }
{
    match parse_hop(alloc, text) {
        Ok(hop) => Ok(Some(format!(in alloc; "{hop:?}")?)),
        Err(_) => Ok(None),
    }
}

/// What a text is read as, written out; `None` where it is refused.
fn shown(alloc: Global, form: Form, text: &str) -> Result<Option<String>, NoMemory> {
    if text.len() > 1000 {
        return Ok(None);
    }
    match form {
        Form::Constraint => constraint(alloc, text),
        Form::Surface => surface(alloc, text),
        Form::Hop => hop(alloc, text),
    }
}

/// Whether two texts are read as the same; `None` where one is refused.
fn is_same(alloc: Global, form: Form, left: &str, right: &str) -> Result<Option<bool>, NoMemory> {
    let Some(left) = shown(alloc, form, left)? else {
        return Ok(None);
    };
    let Some(right) = shown(alloc, form, right)? else {
        return Ok(None);
    };
    Ok(Some(left.as_str() == right.as_str()))
}

/// Two texts, and whether they are read as the same.
type Pair = (&'static str, &'static str, bool);

/// The pairs that are not as it stands beside them.
fn misfits(alloc: Global, form: Form, pairs: &[Pair]) -> Result<String, NoMemory> {
    let mut misfits = String::new(alloc);
    for (left, right, expected) in pairs {
        let line = match is_same(alloc, form, left, right)? {
            Some(same) => {
                if same == *expected {
                    continue;
                }
                format!(in alloc; "{left} and {right}: {same}\n")?
            }
            None => format!(in alloc; "{left} and {right}: refused\n")?,
        };
        misfits.push_str(line.as_str())?;
    }
    Ok(misfits)
}

/// `norm` is asked folded; `&` binds before `|`, both group to the left, and `!` binds first.
const CONSTRAINTS: [Pair; 8] = [
    ("[norm=Dogs]", "[norm='dogs']", true),
    ("[norm=STRASSE]", "[norm=straße]", true),
    ("[word=Dogs]", "[word=dogs]", false),
    ("[norm=/D/]", "[norm=/d/]", false),
    ("[tag=a & tag=b & tag=c]", "[(tag=a & tag=b) & tag=c]", true),
    (
        "[tag=a & tag=b & tag=c]",
        "[tag=a & (tag=b & tag=c)]",
        false,
    ),
    ("[tag=a | tag=b & tag=c]", "[tag=a | (tag=b & tag=c)]", true),
    ("[!tag=a & tag=b]", "[(!tag=a) & tag=b]", true),
];

#[test]
fn norms_are_folded_and_operands_group_to_the_left(rt: HostRuntime) -> Result<(), Fail> {
    let found = misfits(rt.alloc(), Form::Constraint, &CONSTRAINTS)?;
    assert_eq!(rt; found.as_str(), "");
    Ok(())
}

const SURFACES: [Pair; 15] = [
    ("a", "(('A'))", true),
    ("a b", "(a b)", true),
    ("a b c", "a (b c)", false),
    ("a | b | c", "(a | b | c)", true),
    ("a | b | c", "a | (b | c)", false),
    ("a?", "a{0,1}", true),
    ("a*?", "a{0,}?", true),
    ("a*?", "a*", false),
    ("a??", "(a?)?", false),
    ("(?<x>a)", "(?<y>a)", false),
    ("(?=[])", "(?<=[])", false),
    ("a{3}", "a{3,3}", true),
    ("a{,2}", "a{0,2}", true),
    ("(a b)+", "(a b){1,}", true),
    ("dogs", "[norm=dogs]", true),
];

#[test]
fn brackets_of_one_part_mean_nothing(rt: HostRuntime) -> Result<(), Fail> {
    let found = misfits(rt.alloc(), Form::Surface, &SURFACES)?;
    assert_eq!(rt; found.as_str(), "");
    Ok(())
}

const HOPS: [Pair; 9] = [
    ("a >x b", "'A' (>x) (b)", true),
    ("a >x >y b", "a (>x >y) b", true),
    ("a >x b c", "a >x (b c)", true),
    ("a | b", "(a | b)", true),
    ("a >x b", "b >x a", false),
    ("a >x b", "a <x b", false),
    ("a >x b >y c", "a >y b >x c", false),
    ("a >x b >y c", "a >x b", false),
    ("a >x b c", "a >x b >x c", false),
];

#[test]
fn steps_and_surfaces_stand_in_order(rt: HostRuntime) -> Result<(), Fail> {
    let found = misfits(rt.alloc(), Form::Hop, &HOPS)?;
    assert_eq!(rt; found.as_str(), "");
    Ok(())
}
