//! Reading a script: its grammars, and the orders of its clients. `docs/FORMATS.md` has the lines.
ghost use Rattle.std.specs.Prelude.{◌≡◌, Ok, IfOk, IfErr};
ghost use Rattle.od_order.specs.Scripts.{script_of};
ghost use Rattle.od_order.specs.declared.script.Script.{Script as SpecScript};
ghost use Rattle.od_script.specs.Faults.{IsScriptFault};
ghost use Rattle.od_script.specs.Written.{script_bytes, IsWritable, ReadsBack};
ghost use Rattle.od_script.specs.declared.script.ScriptFault.TheVariants.{NoMemory as OutOfMemory};

use crate::lines::first_line;
use crate::reader::Reader;
use od_order::script::{SCRIPT_BYTES, Script};
use od_order::script_kind::ScriptKind;
use od_text::text::NoMemory;
use std::alloc::Global;

/// Why no script was read.
#[derive(Clone, Copy, Debug, PartialEq, Eq)]
pub enum ScriptFault {
    /// The bytes are no script.
    Bad {
        /// The line of the first fault, from 1; 0 where there are too many bytes.
        line: u32,
        /// What is wrong there.
        kind: ScriptKind,
    },
    /// Memory was refused.
    NoMemory,
}

impl From<NoMemory> for ScriptFault {
    ghost from_gives = { λ _ fault. fault ≡ OutOfMemory };

    fn from(_refused: NoMemory) -> ScriptFault {
        ScriptFault::NoMemory
    }
}

/// Reads a script in one pass, or names its first fault. Documents and patterns are taken as they
/// stand: neither is read here.
///
/// A script that is written out reads back as itself, unless memory is refused. It is written so:
/// its grammars in order, then client by client the line and the orders; words are parted by single
/// spaces, numbers are in decimal, and a line feed ends each line. So every script can be written
/// of no more grammars, clients, orders and bytes than are allowed, in which no two grammars have
/// one name, names are names and limits are below 10^9, rule files and patterns are UTF-8, no
/// pattern has a line feed or ends with a carriage return, and each rule file and document is empty
/// or ends with a line feed; what stands last in the script needs none.
pub fn read_script(alloc: Global, bytes: &[u8]) -> Result<Script, ScriptFault>
    ensures ok { IfOk result (λ script. script_of bytes.now ≡ Ok script) }
    ensures fault { IfErr result (IsScriptFault bytes.now) }
    // What is written reads back, but that memory may be refused.
    ensures back { (script : SpecScript) → IsWritable script → bytes.now ≡ script_bytes script
        → ReadsBack script result }
{
    if SCRIPT_BYTES < bytes.len() {
        return Err(ScriptFault::Bad {
            line: 0,
            kind: ScriptKind::TooLong,
        });
    }
    let mut reader = Reader::new(alloc);
    let mut number: u32 = 1;
    let mut rest = bytes;
    while let Some((line, behind)) = first_line(rest) {
        match reader.take_line(alloc, number, line, behind) {
            Ok((block, more)) => {
                number += 1 + block;
                rest = more;
            }
            Err(fault) => return Err(fault),
        }
    }
    Ok(reader.close())
}
