//! What the statements of a rule file have said so far.
ghost use Rattle.std.specs.Prelude.{◌≡◌};

use crate::below::{Below, nothing_below};
use crate::blank::{indentation, says_nothing};
use crate::entries::Entries;
use crate::entry::{entry_column, entry_of, is_item};
use crate::literal::Scalar;
use crate::part::{begins_with, text_from};
use crate::scalar::scalar;
use crate::section::{Role, Section, fits, fits_item, heading};
use od_rule_text::rule_file::{KeyText, RuleFile, YamlFault, YamlKind};
use od_text::list::List;
use od_text::text::{NoMemory, Text};
use std::alloc::Global;
use std::marker::Model;
use std::mem;

/// The entries that were read, and where further ones may stand.
#[derive(Drop)]
pub(crate) struct Reader {
    section: Option<Section>,
    has_vars: bool,
    rules_line: Option<u32>,
    vars_column: Option<usize>,
    items_column: Option<usize>,
    vars: Entries,
    complete: List<List<KeyText>>,
    item: Entries,
}

impl Model for Reader {
    ghost use Rattle.std.specs.Option.{option_map};
    ghost use Rattle.od_rule_text.specs.RuleFiles.{Outline};
    ghost use Rattle.od_yaml.specs.Sections.{section_shown};

    ghost Value = { Outline };

    ghost view = { λ r. record {
      section = option_map section_shown r.section;
      has_vars = r.has_vars;
      rules_line = r.rules_line;
      vars_column = r.vars_column;
      items_column = r.items_column;
      vars = r.vars;
      complete = r.complete;
      item = r.item;
    } };
}

/// A fault of a line.
fn bad(line: u32, kind: YamlKind) -> YamlFault
    ensures { result ≡ YamlFault.Bad line kind }
{
    YamlFault::Bad { line, kind }
}

impl Reader {
    ghost use Rattle.std.specs.Prelude.{◌≡◌, ◌+◌, ◌≤◌, ◌^◌, ◌<◌, [], ◌∷◌, Some, None, Ok, Err, false, length, OnOk, IfOk, IfErr};
    ghost use Rattle.std.specs.Option.{option_map};
    ghost use Rattle.std.specs.Str.Lines.{lines};
    ghost use Rattle.od_rule_text.specs.Statements.{statement_at, statement_of, statements};
    ghost use Rattle.od_rule_text.specs.RuleFiles as files;
    ghost use Rattle.od_yaml.specs.Below.{IsBelow};
    ghost use Rattle.od_yaml.specs.Sections.{section_shown, role_shown};
    ghost use Rattle.od_yaml.specs.Readers.{IsFaultAt, IsFileFault};

    /// Nothing was read.
    pub(crate) fn new(alloc: Global) -> Reader
        ensures { result ≡ files.nothing_said }
    {
        Reader {
            section: None,
            has_vars: false,
            rules_line: None,
            vars_column: None,
            items_column: None,
            vars: Entries::new(alloc),
            complete: List::new(alloc),
            item: Entries::new(alloc),
        }
    }

    /// The rule file, in which there must be an item.
    pub(crate) fn close(self) -> Result<RuleFile, YamlFault>
        ensures file { IfOk result (λ file. files.file_of self (files.items_of self) ≡ Ok file) }
        ensures fault { IfErr result (IsFileFault (files.file_of self (files.items_of self))) }
    {
        let Reader {
            rules_line,
            vars,
            complete: mut rules,
            item,
            ..
        } = self;
        let item = item.close();
        if item.len() != 0 {
            rules.push(item)?;
        }
        if rules.len() == 0 {
            return Err(bad(rules_line.unwrap_or(1), YamlKind::NoRules));
        }
        Ok(RuleFile {
            vars: vars.close(),
            rules,
        })
    }

    /// Whether a statement may stand at this column, above 0.
    fn may_stand(&self, column: usize) -> bool
        ensures { result ≡ files.may_stand self.now.section self.now column }
    {
        match self.section {
            None => false,
            Some(Section::Vars) => fits(self.vars_column, column),
            Some(Section::Rules) => fits_item(self.items_column, column),
        }
    }

    /// Whether an item must begin at this column.
    fn wants_item(&self, column: usize) -> bool
        ensures { result ≡ files.wants_item self.now.section self.now.items_column column }
    {
        match self.section {
            None | Some(Section::Vars) => false,
            Some(Section::Rules) => match self.items_column {
                None => column != 0,
                Some(c) => column == c,
            },
        }
    }

    /// Why what stands at this column may not stand there.
    fn misplaced(&self, column: usize, text: &str) -> Option<YamlKind>
        ensures { result ≡ files.misplaced self.now (statement_at 0 column text.now []) }
    {
        if begins_with(text.as_bytes(), b'\t') {
            return Some(YamlKind::Tab);
        }
        if column != 0 && !self.may_stand(column) {
            return Some(YamlKind::Indent);
        }
        if self.wants_item(column) && !is_item(text) && heading(column, text).is_none() {
            return Some(YamlKind::Item);
        }
        None
    }

    /// What an entry is that stands at this column; none where no entry may begin there.
    fn role(&self, column: usize, text: &str) -> Option<Role>
        ensures { files.role_of self.now.section self.now.items_column column text.now
            ≡ option_map role_shown result }
    {
        let item = is_item(text);
        match self.section {
            None => None,
            Some(Section::Vars) => (column != 0 && !item).then_some(Role::Variable),
            Some(Section::Rules) if item => {
                fits(self.items_column, column).then_some(Role::FirstKey)
            }
            Some(Section::Rules) => (column != 0).then_some(Role::FurtherKey),
        }
    }

    /// Whether the entries among which a key must be new have it.
    fn has(&self, role: Role, key: &Text) -> bool
        ensures { result ≡ files.has_key key.now (files.siblings self.now (role_shown role)) }
    {
        match role {
            Role::Variable => self.vars.has(key),
            Role::FirstKey => false,
            Role::FurtherKey => self.item.has(key),
        }
    }

    /// Goes into a section, which may be done once.
    fn enter(&mut self, line: u32, section: Section) -> Result<(), YamlKind>
        ensures ok { OnOk result
            (files.enter self.old line (section_shown section) ≡ Ok self.new) }
        ensures bad { IfErr result (λ kind.
            files.enter self.old line (section_shown section) ≡ Err kind) }
    {
        match section {
            Section::Vars => {
                if self.has_vars {
                    return Err(YamlKind::SameKey);
                }
                self.has_vars = true;
            }
            Section::Rules => {
                if self.rules_line.is_some() {
                    return Err(YamlKind::SameKey);
                }
                self.rules_line = Some(line);
            }
        }
        self.section = Some(section);
        Ok(())
    }

    /// Begins an item with its first entry.
    fn begin_item(&mut self, alloc: Global, column: usize, entry: KeyText) -> Result<(), NoMemory>
        ensures { OnOk result
            (self.new ≡ files.with_entry self.old files.first_key column entry) }
    {
        let mut item = Entries::new(alloc);
        item.push(alloc, entry)?;
        let last = mem::replace(&mut self.item, item).close();
        if last.len() != 0 {
            self.complete.push(last)?;
        }
        self.items_column = Some(column);
        Ok(())
    }

    /// One more entry, whose key is new.
    fn push(
        &mut self,
        alloc: Global,
        role: Role,
        column: usize,
        entry: KeyText,
    ) -> Result<(), NoMemory>
        requires { files.has_key entry.key (files.siblings self.old (role_shown role)) ≡ false }
        ensures { OnOk result
            (self.new ≡ files.with_entry self.old (role_shown role) column entry) }
    {
        match role {
            Role::Variable => {
                self.vars.push(alloc, entry)?;
                self.vars_column = Some(column);
                Ok(())
            }
            Role::FirstKey => self.begin_item(alloc, column, entry),
            Role::FurtherKey => self.item.push(alloc, entry),
        }
    }

    /// Takes an entry of this role, with the lines below it that belong to it.
    fn take_entry<'a>(
        &mut self,
        alloc: Global,
        line: u32,
        column: usize,
        text: &str,
        role: Role,
        more: &'a str,
    ) -> Result<Below<'a>, YamlFault>
        requires short { length more.now < 2 ^ 32 }
        requires near { column < 2 ^ 32 }
        ensures ok { let s = statement_at line column text.now (lines more.now) in
            OnOk result (files.take_role self.old s (Some (role_shown role)) ≡ Ok self.new) }
        ensures below { let s = statement_at line column text.now (lines more.now) in
            IfOk result (IsBelow s.below more.now) }
        ensures fault { let s = statement_at line column text.now (lines more.now) in
            IfErr result (IsFaultAt line (files.take_role self.old s (Some (role_shown role)))) }
    {
        let Some(entry) = entry_of(text) else {
            return Err(bad(line, YamlKind::BadKey));
        };
        let key = Text::from_str(alloc, entry.key)?;
        if self.has(role, &key) {
            return Err(bad(line, YamlKind::SameKey));
        }
        match scalar(alloc, entry_column(column, text), entry.rest, more)? {
            None => Err(bad(line, YamlKind::BadScalar)),
            Some(Scalar { text: value, below }) => {
                self.push(alloc, role, column, KeyText { key, value })?;
                Ok(below)
            }
        }
    }

    /// Takes a line that says something, with the lines below it that belong to it.
    fn take_statement<'a>(
        &mut self,
        alloc: Global,
        number: u32,
        line: &str,
        more: &'a str,
    ) -> Result<Below<'a>, YamlFault>
        requires short { length more.now < 2 ^ 32 }
        requires near { length line.now < 2 ^ 32 }
        ensures ok { let s = statement_of number line.now (lines more.now) in
            OnOk result (files.take_statement self.old s ≡ Ok self.new) }
        ensures below { let s = statement_of number line.now (lines more.now) in
            IfOk result (IsBelow s.below more.now) }
        ensures fault { let s = statement_of number line.now (lines more.now) in
            IfErr result (IsFaultAt number (files.take_statement self.old s)) }
    {
        let column = indentation(line.as_bytes());
        let text = text_from(line, column);
        if let Some(kind) = self.misplaced(column, text) {
            return Err(bad(number, kind));
        }
        if let Some(section) = heading(column, text) {
            return match self.enter(number, section) {
                Ok(()) => Ok(nothing_below(more)),
                Err(kind) => Err(bad(number, kind)),
            };
        }
        match self.role(column, text) {
            Some(role) => self.take_entry(alloc, number, column, text, role, more),
            None => Err(bad(number, YamlKind::BadKey)),
        }
    }

    /// Takes a line, with the lines below it that belong to it, or tells its first fault.
    pub(crate) fn take_line<'a>(
        &mut self,
        alloc: Global,
        number: u32,
        line: &str,
        more: &'a str,
    ) -> Result<Below<'a>, YamlFault>
        requires short { length more.now < 2 ^ 32 }
        requires near { length line.now < 2 ^ 32 }
        ensures ok { IfOk result (λ below.
            files.file_after self.old (statements number 0 (line.now ∷ lines more.now))
            ≡ files.file_after self.new
            (statements (number + 1 + below.lines) 0 (lines below.rest.now))) }
        ensures short { IfOk result (λ below.
            below.lines + length below.rest.now ≤ length more.now) }
        ensures fault { IfErr result (IsFileFault
            (files.file_after self.old (statements number 0 (line.now ∷ lines more.now)))) }
    {
        if says_nothing(line) {
            return Ok(nothing_below(more));
        }
        self.take_statement(alloc, number, line, more)
    }
}
