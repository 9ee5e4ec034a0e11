use crate::{Expander, ExpansionFault};
use od_rule_text::rule_file::KeyText;
use od_text::list::List;
use od_text::text::{NoMemory, Text};
use std::alloc::Global;

/// What a text becomes where there is one variable.
fn expanded(alloc: Global, key: &str, value: &str, text: &str) -> Result<Text, ExpansionFault> {
    let Ok(mut expander) = one(alloc, key, value) else {
        return Err(ExpansionFault::NoMemory);
    };
    let Ok(text) = Text::from_str(alloc, text) else {
        return Err(ExpansionFault::NoMemory);
    };
    expander.expand(alloc, &text)
}

fn one(alloc: Global, key: &str, value: &str) -> Result<Expander, NoMemory> {
    let mut vars = List::new(alloc);
    vars.push(KeyText {
        key: Text::from_str(alloc, key)?,
        value: Text::from_str(alloc, value)?,
    })?;
    Expander::new(alloc, vars)
}

#[test]
fn variables_are_replaced_or_a_misfit_is_told(rt: HostRuntime) {
    let text = expanded(rt.alloc(), "a", "x", "${a}-$a${a}${a-}$").expect(&rt, "an expansion");
    assert_eq!(rt; text.get(), "x-$ax${a-}$");
    let unknown = expanded(rt.alloc(), "a", "${b}", "${a}");
    assert!(rt; matches!(&unknown, Err(ExpansionFault::UnknownVar)));
    let cycle = expanded(rt.alloc(), "a", "x${a}", "${a}${b}");
    assert!(rt; matches!(&cycle, Err(ExpansionFault::VarCycle { var }) if var.get() == "a"));
}
