//! The need of a token whose constraint is thousands deep, as a pattern of 16 KiB may have it.
use crate::needs;
use od_need::need::Need;
use od_pattern::pattern::{Constraint, Field, Surface, Value};
use od_pattern::rule::{Body, Hop, Priority, Rule};
use od_text::list::List;
use od_text::text::{NoMemory, Text};
use sqlite_items::Boxed;
use std::alloc::Global;
use std::test::Fail;
use std::thread;

/// `tag=a`.
fn tag(alloc: Global) -> Result<Constraint, NoMemory> {
    let value = Value::Plain(Text::from_str(alloc, "a")?);
    Ok(Constraint::Is(Field::Tag, value))
}

/// `tag=a`, and as many times more as is said, by `&` or by `|`: the left operands are deep.
fn joined(alloc: Global, all: bool, times: u32) -> Result<Constraint, NoMemory> {
    let mut whole = tag(alloc)?;
    for _more in 0..times {
        let left = Boxed::new(alloc, whole)?;
        let right = Boxed::new(alloc, tag(alloc)?)?;
        whole = if all {
            Constraint::And(left, right)
        } else {
            Constraint::Or(left, right)
        };
    }
    Ok(whole)
}

/// Whether the need of such a token is one of the two.
fn is_required(alloc: Global, all: bool) -> Result<bool, NoMemory> {
    let rule = Rule {
        name: Text::from_str(alloc, "deep")?,
        label: Text::from_str(alloc, "Deep")?,
        priority: Priority {
            first: 1,
            last: None,
        },
        body: Body::Basic(Hop {
            first: Surface::Token(joined(alloc, all, 2_700)?),
            rest: List::new(alloc),
        }),
    };
    let need = needs(alloc, &rule)?;
    let is = match &need {
        Need::And(parts) => all && parts.len() == 2,
        Need::Or(parts) => !all && parts.len() == 2,
        _ => false,
    };
    Ok(is)
}

/// The need is made, and it and the rule are let go, on a thread's stack.
#[test]
fn needs_thousands_deep_need_no_stack(rt: HostRuntime) -> Result<(), Fail> {
    let alloc = rt.alloc();
    for (all, sign) in [(true, "&"), (false, "|")] {
        match thread::spawn(&rt, move || is_required(alloc, all)) {
            Ok(child) => assert_eq!(rt; child.join(&rt), Ok(true), "by {sign}"),
            Err(_) => assert!(rt; false),
        }
    }
    Ok(())
}
