//! The desk: commands are answered there one after another, and their lines written.
ghost use Rattle.std.specs.Prelude.{◌↔◌, IsTrue};
ghost use Rattle.od_model.specs.History.Orders.{GoesOn};

use crate::shown::entry_lines;
use od_command::history::{Command, Entry, Reply};
use od_extraction::phase::Phase;
use od_heads::Heads;
use od_io::{Runner, Sink, write_whole};
use od_text::text::NoMemory;
use od_workspace::workspace::Workspace;
use od_workspace::workspace::change::Answer;
use std::alloc::{AllocError, Global};
use std::marker::Model;
use std::snapshot::Snapshot;

/// Why a command was not answered, or its lines not written.
#[derive(Clone, Copy, Debug, PartialEq, Eq)]
pub enum Stop {
    /// A write failed: the command was answered, and its lines are cut short.
    WriteFault,
    /// Memory was refused: nothing has changed.
    NoMemory,
}

impl From<NoMemory> for Stop {
    ghost use Rattle.std.specs.Prelude.{◌≡◌};
    ghost use Rattle.od_desk.specs.declared.desk.Stop.TheVariants as stop;

    ghost from_gives = { λ _ s. s ≡ stop.NoMemory };

    fn from(_refused: NoMemory) -> Stop {
        Stop::NoMemory
    }
}

impl From<AllocError> for Stop {
    ghost use Rattle.std.specs.Prelude.{◌≡◌};
    ghost use Rattle.od_desk.specs.declared.desk.Stop.TheVariants as stop;

    ghost from_gives = { λ _ s. s ≡ stop.NoMemory };

    fn from(_refused: AllocError) -> Stop {
        Stop::NoMemory
    }
}

/// The committed documents and the sessions, the answered commands, and the sink that took their lines.
#[derive(Drop)]
pub struct Desk<W: Sink, R: Runner> {
    /// The grammars that `open` may name.
    heads: Heads<R>,
    workspace: Workspace,
    history: Vec<Entry>,
    sink: W,
    /// A write failed, by which the lines of the last entry are cut short.
    cut: bool,
    /// The documents and sessions at the beginning.
    start: Snapshot<Workspace>,
    /// The sink at the beginning.
    before: Snapshot<W>,
}

impl<W: Sink, R: Runner> Model for Desk<W, R> {
    ghost use Rattle.od_desk.specs.Desks.{DeskState, IsDesk, taken};

    ghost Value = { DeskState };

    ghost view = { λ d. record {
      origin = record { heads = d.heads; start = d.start.value; sink = taken (W.written d.before.value) (W.faults d.before.value) };
      object = d.workspace;
      history = d.history.items;
      sink = taken (W.written d.sink) (W.faults d.sink);
      cut = d.cut;
    } };

    ghost invariant = { λ d. IsDesk (record {
      origin = record { heads = d.heads; start = d.start.value; sink = taken (W.written d.before.value) (W.faults d.before.value) };
      object = d.workspace;
      history = d.history.items;
      sink = taken (W.written d.sink) (W.faults d.sink);
      cut = d.cut;
    }) };
}

/// Whether a run goes on after this reply.
fn goes_on(reply: &Reply) -> bool
    ensures { IsTrue result ↔ GoesOn reply.now }
{
    match reply {
        Reply::Stepped { phase, .. } => *phase == Phase::Going,
        _ => false,
    }
}

impl<W: Sink, R: Runner + Drop> Desk<W, R> {
    ghost use Rattle.std.specs.Prelude.{◌≡◌, ◌↔◌, ℕ, ◌+◌, List as Seq, length, true, false, IfOk, OnErr, IsTrue, IsErrOf};
    ghost use Rattle.od_command.specs.declared.history.Entry.{Entry};
    ghost use Rattle.od_text.specs.Lists.{Each};
    ghost use Rattle.od_session.specs.Parts.{nothing, IsAccepted};
    ghost use Rattle.od_model.specs.History.Legal.{mine};
    ghost use Rattle.od_model.specs.History.Orders.{GoesOn};
    ghost use Rattle.od_desk.specs.Desks.{taken, opened_desk, IsDesk};
    ghost use Rattle.od_desk.specs.Stops.{is_cut};
    ghost use Rattle.od_desk.specs.Further.{OneMore, AtMostOne, Climbs};

    /// A desk with no document and no session.
    pub fn new(alloc: Global, heads: Heads<R>, sink: W) -> Desk<W, R>
        requires accepted { Each IsAccepted heads }
        ensures { result ≡ opened_desk (record {
          heads = heads;
          start = nothing;
          sink = taken
              (W.written sink) (W.faults sink);
        }) }
    {
        let workspace = Workspace::new(alloc);
        let start = Snapshot::of(&workspace);
        let before = Snapshot::of(&sink);
        Desk {
            heads,
            workspace,
            history: Vec::new(alloc),
            sink,
            cut: false,
            start,
            before,
        }
    }

    /// Answers a command, and writes its lines. Gives whether a run goes on after the reply. `call` is the number of the caller's
    /// next call, counted from 1.
    ///
    /// All memory is taken before anything changes: where it is refused, the desk stays as it was.
    pub fn answer(
        &mut self,
        alloc: Global,
        caller: u32,
        call: u32,
        command: Command,
    ) -> Result<bool, Stop>
        requires whole { self.old.cut ≡ false }
        requires call { call ≡ length (mine caller self.old.history) + 1 }
        ensures desk { IsDesk self.new }
        ensures origin { self.new.origin ≡ self.old.origin }
        ensures entry { IfOk result (λ goes. (e : Entry)
            × OneMore caller command self.old.history self.new.history e
            × (IsTrue goes ↔ GoesOn e.reply)) }
        ensures climbs { IfOk result (λ goes. (name : Seq ℕ) → command ≡ Command.Step name
            → IsTrue goes → Climbs name self.old.object self.new.object) }
        ensures part { OnErr result (AtMostOne caller command self.old.history self.new.history) }
        ensures kept { IsErrOf result Stop.NoMemory → self.new.history ≡ self.old.history }
        ensures cut { self.new.cut ≡ is_cut result }
    {
        let answer = self
            .workspace
            .answer(alloc, &mut self.heads, caller, &command)?;
        let Answer { reply, change } = answer;
        let goes = goes_on(&reply);
        let entry = Entry {
            caller,
            call,
            command,
            reply,
        };
        let lines = entry_lines(alloc, &self.workspace, &entry)?;
        self.history.reserve(1)?;
        self.workspace.change(alloc, change)?;
        self.history.push_reserved(entry);
        match write_whole(&mut self.sink, lines.get()) {
            Ok(()) => Ok(goes),
            Err(_) => {
                self.cut = true;
                Err(Stop::WriteFault)
            }
        }
    }

    /// The answered commands, in the order of their answers, and the sink.
    pub fn close(self) -> (Vec<Entry>, W)
        ensures desk { IsDesk self }
        ensures history { result.0.items ≡ self.history }
        ensures sink { taken (W.written result.1) (W.faults result.1) ≡ self.sink }
    {
        let Desk {
            heads: _,
            workspace: _,
            history,
            sink,
            cut: _,
            start: _,
            before: _,
        } = self;
        (history, sink)
    }
}
