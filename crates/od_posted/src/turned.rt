//! Labels as they go out.
ghost use Rattle.std.specs.Prelude.{◌≡◌, List, ℕ, Contains, IfOk};
ghost use Rattle.od_index.specs.Tables.{IsNumber};
ghost use Rattle.od_index.specs.Terms.{Term};
ghost use Rattle.od_pattern.specs.declared.pattern.Field.TheVariants as field;
ghost use Rattle.od_posted.specs.Turned.{AreTurned, GoOut, IsTurned};

use od_pattern::pattern::Field;
use od_postings::TermTable;
use od_text::text::{NoMemory, Text};
use std::alloc::Global;

/// For each label that comes in, in the order of the table, the number with which it goes out: each
/// label is looked up once, and not at each edge.
#[derive(Drop)]
pub(crate) struct Turned {
    pub(crate) first: u32,
    pub(crate) numbers: Vec<u32>,
}

/// The number with which a label goes out, where it does; else any number.
fn going_out(table: &TermTable, label: &Text) -> u32
    ensures { Contains table.now (field.Outgoing, label.now)
        → IsNumber table.now field.Outgoing label.now result }
{
    match table.number(Field::Outgoing, label.get()) {
        Some(number) => number,
        None => 0,
    }
}

/// The same for some labels.
fn all_going_out(alloc: Global, table: &TermTable, labels: &[Text]) -> Result<Vec<u32>, NoMemory>
    ensures { IfOk result (λ numbers. GoOut table.now labels.now numbers.items) }
{
    let mut numbers = Vec::with_capacity(alloc, labels.len())?;
    for label in labels {
        numbers.push(going_out(table, label))?;
    }
    Ok(numbers)
}

impl Turned {
    /// The labels of a table.
    pub(crate) fn of(alloc: Global, table: &TermTable) -> Result<Turned, NoMemory>
        ensures { IfOk result (λ t. AreTurned table.now t.first t.numbers.items) }
    {
        let (first, labels) = table.texts(Field::Incoming);
        let numbers = all_going_out(alloc, table, labels)?;
        Ok(Turned { first, numbers })
    }

    /// The number with which a label goes out, from the one with which it comes in.
    pub(crate) fn out(&self, number: u32) -> u32
        requires { (table : List Term) × (label : List ℕ)
            × IsTurned table self.now.first self.now.numbers.items number label }
        ensures { (table : List Term) (label : List ℕ)
            → IsTurned table self.now.first self.now.numbers.items number label
            → IsNumber table field.Outgoing label result }
    {
        self.numbers[(number - self.first) as usize]
    }
}
