//! How a call of the program ends.
use od_order::script_kind::ScriptKind;
use od_rule_text::grammar_fault::GrammarFault;
use od_text::text::Text;

/// How a call of the program ends, each way with its exit status.
#[derive(Debug, Drop)]
pub enum Status {
    /// 0: every command was answered, and none was refused.
    Done,
    /// 1: every command was answered, and some were refused.
    Refused,
    /// 2: the words are not those of the program.
    Usage,
    /// 3: the input is no script: its first fault, with its line, numbered from 1; 0 where it is too long.
    NoScript { line: u32, kind: ScriptKind },
    /// 4: the script's first grammar that is not accepted, by its name, and why.
    BadGrammar { name: Text, fault: GrammarFault },
    /// 7: a read failed.
    ReadFault,
    /// 8: a write failed.
    WriteFault,
    /// 9: memory was refused.
    NoMemory,
}
