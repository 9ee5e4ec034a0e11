//! Reading a rule file.
ghost use Rattle.std.specs.Prelude.{◌≡◌, ◌^◌, ◌<◌, Ok, IfOk, IfErr, length};
ghost use Rattle.od_rule_text.specs.Laws.{IsRuleFile};
ghost use Rattle.od_rule_text.specs.RuleFiles.{rule_file_of, IsYamlFault};
ghost use Rattle.od_rule_text.specs.Written.{written_file};
ghost use Rattle.od_rule_text.specs.declared.rule_file.RuleFile.{RuleFile as File};
ghost use Rattle.od_yaml.specs.Readers.{ReadsBack};

use crate::line::next_line;
use crate::reader::Reader;
use od_rule_text::rule_file::{RuleFile, YamlFault};
use std::alloc::Global;

/// Reads a rule file of fewer than 2^32 bytes in one pass, or tells its first fault.
///
/// Lines end with LF or CRLF, or with the text. Outside literals, lines of blanks alone and those whose
/// first character past blanks is `#` say nothing. At column 0 stand `vars:`, at most once, and
/// `rules:`, once, in any order. Under `vars:` stand entries `name: scalar` at one column above 0.
/// Under `rules:` stand items, which begin with `- ` at one column: an item's first entry stands on its
/// line, the others below it, two columns further. A scalar is plain, or stands between double quotes,
/// where `\"`, `\\`, `\n` and `\t` are escapes, or is literal: `|` or `|-`, and then the lines below that
/// are indented above its key.
///
/// The fault is that of the first line that has one, numbered from 1, and the first of that line's in the
/// order of the kinds; that no item stands under `rules:` is tested last. Memory may be refused at any
/// place.
///
/// A rule file that is written out, each value between double quotes, reads back as itself.
pub fn read_rules_file(alloc: Global, text: &str) -> Result<RuleFile, YamlFault>
    requires { length text.now < 2 ^ 32 }
    ensures value { IfOk result (λ file. rule_file_of text.now ≡ Ok file) }
    ensures fault { IfErr result (IsYamlFault text.now) }
    ensures reads_back { (file : File) → IsRuleFile file → text.now ≡ written_file file →
        ReadsBack file result }
{
    let mut reader = Reader::new(alloc);
    let mut passed: u32 = 0;
    let mut rest = text;
    while let Some((line, more)) = next_line(rest) {
        match reader.take_line(alloc, passed + 1, line, more) {
            Ok(below) => {
                passed += 1 + below.lines;
                rest = below.rest;
            }
            Err(fault) => return Err(fault),
        }
    }
    reader.close()
}
