//! The exit status of each way to end, and the line that tells it.
ghost use Rattle.std.specs.Prelude.{◌≡◌, ◌++◌, ◌≤◌, codes, OnOk, OnErr};
ghost use Rattle.std.specs.Io.KnownBytes.{Appends};
ghost use Rattle.od_io.specs.Streams.Count.{Rose};
ghost use Rattle.od_io.specs.Streams.Writing.{AppendsProperPrefix, AppendsUpToFault};
ghost use Rattle.od_model.specs.Run.Ends.{Answered};
ghost use Rattle.od_model.specs.Run.Words.{exit_status, diagnostic, fault_text, kind_text, limit_text, pattern_text, yaml_text};

use itoa::Buffer;
use od_io::{Failed, Sink, write_whole};
use od_language::pattern_fault::PatternKind;
use od_model::status::Status;
use od_order::script_kind::ScriptKind;
use od_rule_text::grammar_fault::{GrammarFault, GrammarLimit};
use od_rule_text::rule_file::YamlKind;
use od_text::text::Text;

/// The exit status.
pub fn exit_status(status: &Status) -> u8
    ensures { result ≡ exit_status status.now }
{
    match status {
        Status::Done => 0,
        Status::Refused => 1,
        Status::Usage => 2,
        Status::NoScript { .. } => 3,
        Status::BadGrammar { .. } => 4,
        Status::ReadFault => 7,
        Status::WriteFault => 8,
        Status::NoMemory => 9,
    }
}

/// Writes a text whole.
fn write_text<E: Sink>(diag: &mut E, text: &str) -> Result<(), Failed>
    ensures whole { OnOk result (Appends (E.written diag.old) (E.written diag.new) text.now) }
    ensures part { OnErr result
        (AppendsProperPrefix (E.written diag.old) (E.written diag.new) text.now) }
    ensures failed { OnErr result (Rose (E.faults diag.old) (E.faults diag.new)) }
    ensures later { E.faults diag.old ≤ E.faults diag.new }
{
    write_whole(diag, text.as_bytes())
}

/// Writes three pieces one after another, up to a write that fails.
fn write_pieces<E: Sink>(diag: &mut E, pieces: (&str, &str, &str)) -> Result<(), Failed>
    ensures whole { OnOk result (Appends (E.written diag.old) (E.written diag.new)
        ((pieces.entry.0.now ++ pieces.entry.1.now) ++ pieces.entry.2.now)) }
    ensures part { OnErr result (AppendsProperPrefix (E.written diag.old) (E.written diag.new)
        ((pieces.entry.0.now ++ pieces.entry.1.now) ++ pieces.entry.2.now)) }
    ensures failed { OnErr result (Rose (E.faults diag.old) (E.faults diag.new)) }
    ensures later { E.faults diag.old ≤ E.faults diag.new }
{
    if let Err(failed) = write_text(diag, pieces.0) {
        return Err(failed);
    }
    if let Err(failed) = write_text(diag, pieces.1) {
        return Err(failed);
    }
    if let Err(failed) = write_text(diag, pieces.2) {
        return Err(failed);
    }
    Ok(())
}

/// What stands behind the line's number in the diagnostic of a script's fault.
fn kind_end(kind: ScriptKind) -> &'static str
    ensures { result.now ≡ codes ": " ++ kind_text kind ++ codes "\n" }
{
    match kind {
        ScriptKind::TooLong => ": TooLong\n",
        ScriptKind::NotUtf8 => ": NotUtf8\n",
        ScriptKind::BadWord => ": BadWord\n",
        ScriptKind::LateHead => ": LateHead\n",
        ScriptKind::NoClient => ": NoClient\n",
        ScriptKind::Shape => ": Shape\n",
        ScriptKind::BadName => ": BadName\n",
        ScriptKind::BadNumber => ": BadNumber\n",
        ScriptKind::SameHead => ": SameHead\n",
        ScriptKind::ShortBlock => ": ShortBlock\n",
        ScriptKind::TooMany => ": TooMany\n",
    }
}

/// The kind of a limit of grammars.
fn limit_word(which: GrammarLimit) -> &'static str
    ensures { result.now ≡ limit_text which }
{
    match which {
        GrammarLimit::GrammarBytes => "GrammarBytes",
        GrammarLimit::Rules => "Rules",
        GrammarLimit::Vars => "Vars",
        GrammarLimit::PatternBytes => "PatternBytes",
        GrammarLimit::Regexes => "Regexes",
    }
}

/// The kind of a rule file's fault.
fn yaml_word(kind: YamlKind) -> &'static str
    ensures { result.now ≡ yaml_text kind }
{
    match kind {
        YamlKind::Tab => "Tab",
        YamlKind::Indent => "Indent",
        YamlKind::Item => "Item",
        YamlKind::BadKey => "BadKey",
        YamlKind::SameKey => "SameKey",
        YamlKind::BadScalar => "BadScalar",
        YamlKind::NoRules => "NoRules",
    }
}

/// The kind of a pattern's fault.
fn pattern_word(kind: PatternKind) -> &'static str
    ensures { result.now ≡ pattern_text kind }
{
    match kind {
        PatternKind::Lex => "Lex",
        PatternKind::Expected => "Expected",
        PatternKind::UnknownField => "UnknownField",
        PatternKind::BadRange => "BadRange",
        PatternKind::NullableRepeat => "NullableRepeat",
        PatternKind::SameCapture => "SameCapture",
        PatternKind::RegexLong => "RegexLong",
        PatternKind::TooDeep => "TooDeep",
        PatternKind::TooBig => "TooBig",
    }
}

/// Why a grammar is refused, in three pieces and three more. Numbers are written into the buffers.
fn fault_pieces<'a>(
    fault: &'a GrammarFault,
    first: &'a mut Buffer,
    second: &'a mut Buffer,
) -> ((&'a str, &'a str, &'a str), (&'a str, &'a str, &'a str))
    ensures { ((result.0.0.now ++ result.0.1.now) ++ result.0.2.now)
        ++ ((result.1.0.now ++ result.1.1.now) ++ result.1.2.now) ≡ fault_text fault.now }
{
    match fault {
        GrammarFault::Limit { which, limit } => (
            ("Limit which ", limit_word(*which), " limit "),
            (first.format(*limit), "", ""),
        ),
        GrammarFault::Yaml { line, kind } => (
            ("Yaml line ", first.format(*line), " kind "),
            (yaml_word(*kind), "", ""),
        ),
        GrammarFault::UnknownKey { rule } => {
            (("UnknownKey rule ", first.format(*rule), ""), ("", "", ""))
        }
        GrammarFault::MissingKey { rule } => {
            (("MissingKey rule ", first.format(*rule), ""), ("", "", ""))
        }
        GrammarFault::BadName { rule } => {
            (("BadName rule ", first.format(*rule), ""), ("", "", ""))
        }
        GrammarFault::SameName { rule } => {
            (("SameName rule ", first.format(*rule), ""), ("", "", ""))
        }
        GrammarFault::BadLabel { rule } => {
            (("BadLabel rule ", first.format(*rule), ""), ("", "", ""))
        }
        GrammarFault::BadType { rule } => {
            (("BadType rule ", first.format(*rule), ""), ("", "", ""))
        }
        GrammarFault::BadPriority { rule } => {
            (("BadPriority rule ", first.format(*rule), ""), ("", "", ""))
        }
        GrammarFault::UnknownVar { rule } => {
            (("UnknownVar rule ", first.format(*rule), ""), ("", "", ""))
        }
        GrammarFault::VarCycle { var } => (("VarCycle var ", var.get(), ""), ("", "", "")),
        GrammarFault::Pattern { rule, at, kind } => (
            ("Pattern rule ", first.format(*rule), " at "),
            (second.format(*at), " kind ", pattern_word(*kind)),
        ),
        GrammarFault::UnknownLabel { rule } => {
            (
                ("UnknownLabel rule ", first.format(*rule), ""),
                ("", "", ""),
            )
        }
        GrammarFault::RegexRefused { rule, number } => (
            ("RegexRefused rule ", first.format(*rule), " number "),
            (second.format(*number), "", ""),
        ),
        GrammarFault::NoMemory => (("NoMemory", "", ""), ("", "", "")),
    }
}

/// The line of a grammar that is not accepted.
fn write_refusal<E: Sink>(diag: &mut E, name: &Text, fault: &GrammarFault) -> Result<(), Failed>
    ensures whole { OnOk result (Appends (E.written diag.old) (E.written diag.new)
        (diagnostic (Status.BadGrammar name.now fault.now))) }
    ensures part { OnErr result (AppendsProperPrefix (E.written diag.old) (E.written diag.new)
        (diagnostic (Status.BadGrammar name.now fault.now))) }
    ensures failed { OnErr result (Rose (E.faults diag.old) (E.faults diag.new)) }
    ensures later { E.faults diag.old ≤ E.faults diag.new }
{
    let mut first = Buffer::new();
    let mut second = Buffer::new();
    let (front, back) = fault_pieces(fault, &mut first, &mut second);
    if let Err(failed) = write_pieces(diag, ("odinson: grammar ", name.get(), ": ")) {
        return Err(failed);
    }
    if let Err(failed) = write_pieces(diag, front) {
        return Err(failed);
    }
    if let Err(failed) = write_pieces(diag, back) {
        return Err(failed);
    }
    if let Err(failed) = write_text(diag, "\n") {
        return Err(failed);
    }
    Ok(())
}

/// The line of a script's fault, in three pieces. The number is written into the buffer.
fn script_line(line: u32, kind: ScriptKind, number: &mut Buffer) -> (&str, &str, &str)
    ensures { (result.0.now ++ result.1.now) ++ result.2.now
        ≡ diagnostic (Status.NoScript line kind) }
{
    ("odinson: script line ", number.format(line), kind_end(kind))
}

/// Writes the line of a status, which is empty where every command was answered.
fn write_line<E: Sink>(diag: &mut E, status: &Status) -> Result<(), Failed>
    ensures whole { OnOk result (Appends (E.written diag.old) (E.written diag.new)
        (diagnostic status.now)) }
    ensures part { OnErr result (AppendsProperPrefix (E.written diag.old) (E.written diag.new)
        (diagnostic status.now)) }
    ensures failed { OnErr result (Rose (E.faults diag.old) (E.faults diag.new)) }
    ensures later { E.faults diag.old ≤ E.faults diag.new }
{
    match status {
        Status::Done => write_text(diag, ""),
        Status::Refused => write_text(diag, ""),
        Status::Usage => write_text(diag, "odinson: usage: see help\n"),
        Status::NoScript { line, kind } => {
            let mut number = Buffer::new();
            write_pieces(diag, script_line(*line, *kind, &mut number))
        }
        Status::BadGrammar { name, fault } => write_refusal(diag, name, fault),
        Status::ReadFault => write_text(diag, "odinson: read fault\n"),
        Status::WriteFault => write_text(diag, "odinson: write fault\n"),
        Status::NoMemory => write_text(diag, "odinson: no memory\n"),
    }
}

/// Writes the line of a status from 2 on; nothing is written where every command was answered.
pub fn warn<E: Sink>(diag: &mut E, status: &Status)
    ensures quiet { Answered status.now → diag.new ≡ diag.old }
    ensures line { AppendsUpToFault (E.faults diag.old) (E.faults diag.new) (E.written diag.old)
        (E.written diag.new)
        (diagnostic status.now) }
    ensures later { E.faults diag.old ≤ E.faults diag.new }
{
    match status {
        Status::Done | Status::Refused => {}
        _ => {
            let _ = write_line(diag, status);
        }
    }
}
