//! With ample memory a copy succeeds, and has what its original has.
use crate::mark::{Cause, Mark};
use od_command::history::{Command, Entry, Reply};
use od_text::text::{Copied, NoMemory};

fn entry(call: u32) -> Entry {
    Entry {
        caller: 2,
        call,
        command: Command::Settle,
        reply: Reply::Released,
    }
}

#[test]
fn a_mark_is_copied(rt: HostRuntime) -> Result<(), NoMemory> {
    let mark = Mark {
        caller: 2,
        entry: Some(entry(1)),
        merge: Some(3),
        stop: Some(Cause::StoreFault),
        lost: Some(entry(4)),
    };
    let twin = mark.copy(rt.alloc())?;
    assert!(&rt; twin.caller == 2 && twin.entry.is_some() && twin.lost.is_some());
    assert!(&rt; twin.merge == Some(3) && twin.stop == Some(Cause::StoreFault));
    Ok(())
}
