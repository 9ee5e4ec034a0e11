//! The table of the terms of a document.
ghost use Rattle.std.specs.Prelude.{◌≡◌, ◌<◌, ◌+◌, ◌++◌, ◌^◌, length, IfOk, Contains, vec_len, IfSome, IfNone};
ghost use Rattle.od_index.specs.Terms.{doc_terms};
ghost use Rattle.od_index.specs.Tables.{IsAscending, IsTableOf, IsNumber};
ghost use Rattle.od_postings.specs.Arrivals.{Renumbers};
ghost use Rattle.od_postings.specs.Seen.{terms_seen};
ghost use Rattle.od_postings.specs.Tables.{IsBlock};

use crate::collect::{Seen, seen_in};
use crate::merging::merged;
use crate::ordering::put_in_order;
use crate::renumbering::numbers_of;
use crate::search::{block, place_of, term_at};
use crate::slots::{gathered, slots_of};
use od_document::doc::Doc;
use od_pattern::pattern::Field;
use od_text::text::{NoMemory, Text};
use std::alloc::Global;
use std::marker::Model;

/// The terms of some documents: texts with their fields, each pair once, in the order of the fields
/// and then of the texts' bytes. A term has its place, from 0 on, as its number.
///
/// The fields and the texts stand side by side, so that the texts of one field are a slice.
#[derive(Debug, Drop)]
pub struct TermTable {
    fields: Vec<Field>,
    texts: Vec<Text>,
    /// Of the hashes of terms, the place of a term that has it. Any number may stand there: a place
    /// counts only where the term that is asked for stands at it.
    slots: Vec<u32>,
}

impl Model for TermTable {
    ghost use Rattle.std.specs.Prelude.{List};
    ghost use Rattle.std.specs.List.{zip};
    ghost use Rattle.od_index.specs.Terms.{Term};
    ghost use Rattle.od_postings.specs.Tables.{IsTable};

    ghost Value = { List Term };

    ghost view = { λ t. zip t.fields.items t.texts.items };

    ghost invariant = { λ t. IsTable t.fields.items t.texts.items };
}

/// The table of two tables, and for each of both, of each of its terms in their order, the number in
/// that table.
#[derive(Drop)]
pub struct Union {
    pub table: TermTable,
    pub left: Vec<u32>,
    pub right: Vec<u32>,
}

/// The table of terms that ascend. Each text is copied, once.
fn copied(alloc: Global, terms: &[Seen<'_>]) -> Result<TermTable, NoMemory>
    requires short { length terms.now < 2 ^ 32 }
    requires ascends { IsAscending (terms_seen terms.now) }
    ensures { IfOk result (λ table. table ≡ terms_seen terms.now) }
{
    let mut fields = Vec::with_capacity(alloc, terms.len())?;
    let mut texts = Vec::with_capacity(alloc, terms.len())?;
    for term in terms {
        let text = Text::from_str(alloc, term.1)?;
        fields.push(term.0).unwrap();
        texts.push(text).unwrap();
    }
    let slots = slots_of(alloc, terms)?;
    Ok(TermTable {
        fields,
        texts,
        slots,
    })
}

/// The table of some terms.
fn table_of(alloc: Global, terms: &[Seen<'_>]) -> Result<TermTable, NoMemory>
    requires { length terms.now < 2 ^ 32 }
    ensures { IfOk result (λ table. IsTableOf (terms_seen terms.now) table) }
{
    let mut kept = gathered(alloc, terms)?;
    put_in_order(&mut kept);
    copied(alloc, &kept)
}

/// The table of some terms that have few repeats.
pub(crate) fn table_of_few(alloc: Global, terms: &[Seen<'_>]) -> Result<TermTable, NoMemory>
    requires { length terms.now < 2 ^ 32 }
    ensures { IfOk result (λ table. IsTableOf (terms_seen terms.now) table) }
{
    let mut kept = Vec::from_slice(alloc, terms)?;
    put_in_order(&mut kept);
    copied(alloc, &kept)
}

impl TermTable {
    /// The table of the terms of a document: the texts of its tokens, and the label of each of its
    /// edges as an incoming and as an outgoing one.
    ///
    /// # Errors
    ///
    /// `NoMemory` where memory is refused.
    pub fn build(alloc: Global, doc: &Doc) -> Result<TermTable, NoMemory>
        ensures { IfOk result (λ table. IsTableOf (doc_terms doc.now) table) }
    {
        let terms = seen_in(alloc, doc.sentences.get())?;
        table_of(alloc, &terms)
    }

    /// The table of the terms of two tables, by one walk over both. The tables have fewer than 2^32
    /// terms together.
    ///
    /// # Errors
    ///
    /// `NoMemory` where memory is refused.
    pub fn union(alloc: Global, left: &TermTable, right: &TermTable) -> Result<TermTable, NoMemory>
        requires { length left.now + length right.now < 2 ^ 32 }
        ensures { IfOk result (λ table. IsTableOf (left.now ++ right.now) table) }
    {
        let terms = merged(alloc, left, right)?;
        copied(alloc, &terms)
    }

    /// The table of the terms of two tables, and of each term of either its number there.
    ///
    /// # Errors
    ///
    /// `NoMemory` where memory is refused.
    pub fn union_with(alloc: Global, left: &TermTable, right: &TermTable) -> Result<Union, NoMemory>
        requires { length left.now + length right.now < 2 ^ 32 }
        ensures table { IfOk result (λ u. IsTableOf (left.now ++ right.now) u.table) }
        ensures left { IfOk result (λ u. Renumbers left.now u.table u.left.items) }
        ensures right { IfOk result (λ u. Renumbers right.now u.table u.right.items) }
    {
        let table = TermTable::union(alloc, left, right)?;
        let of_left = numbers_of(alloc, left, &table)?;
        let of_right = numbers_of(alloc, right, &table)?;
        Ok(Union {
            table,
            left: of_left,
            right: of_right,
        })
    }

    /// How many terms it has.
    pub fn len(&self) -> u32
        ensures len { result ≡ length self.now }
        ensures ascends { IsAscending self.now }
    {
        self.texts.len() as u32
    }

    /// The number of a text in a field, where it has one; found by its hash, or else by halves.
    pub fn number(&self, field: Field, text: &str) -> Option<u32>
        ensures some { IfSome result (λ n. IsNumber self.now field text.now n) }
        ensures none { IfNone result (Contains self.now (field, text.now) → ⊥) }
        ensures few { length self.now < 2 ^ 32 }
    {
        match place_of(&self.fields, &self.texts, &self.slots, field, text) {
            Some(place) => Some(place as u32),
            None => None,
        }
    }

    /// The term of a number, below the number of terms.
    pub fn text(&self, number: u32) -> (Field, &str)
        requires { number < length self.now }
        ensures { IsNumber self.now result.0 result.1.now number }
    {
        term_at(&self.fields, &self.texts, number as usize)
    }

    /// The texts of a field in their order, and the number of the first of them.
    pub fn texts(&self, field: Field) -> (u32, &[Text])
        ensures { IsBlock self.now field result.0 result.1.now }
    {
        let (first, texts) = block(&self.fields, &self.texts, field);
        (first as u32, texts)
    }
}
