//! The top call: words, a source and two sinks in, a status and the history out.
ghost use Rattle.std.specs.Prelude.{◌≡◌, ◌↔◌, ◌⊎◌, true, false, ◌≤◌, [], map, string_bytes, Option, List as Seq, ℕ, IfOk, IfErr, OnOk};
ghost use Rattle.std.specs.Io.KnownBytes.{IsAtEnd};
ghost use Rattle.od_io.specs.Streams.Count.{Rose};
ghost use Rattle.od_session.specs.Grammars.{AreRead};
ghost use Rattle.od_order.specs.Laws.{IsFew};
ghost use Rattle.od_model.specs.Run.Clients.{has_refusal};
ghost use Rattle.od_model.specs.Run.Ends.{Answered, CanEndSo, HasStatus, RefusedBy};
ghost use Rattle.od_model.specs.Run.Outcome.{IsScriptOf};
ghost use Rattle.od_model.specs.Run.Words.{is_serve};
ghost use Rattle.od_serve.specs.Running.Ends.{RunOutcome, NeverBegan, Ran, run_status, Ends};
ghost use Rattle.od_heads.specs.Faults.{refused_since};
ghost use Rattle.od_serve.specs.Running.Ready.{script_in};

use crate::clients::run_clients;
use od_command::history::{Entry, Reply};
use od_desk::desk::Desk;
use od_diagnostic::{exit_status, warn};
use od_heads::{Heads, HeadsFault, make_heads};
use od_io::{Failed, PatternMaker, ReadAll, Runner, Sink, Source, read_all};
use od_model::status::Status;
use od_order::script::{Order, SCRIPT_BYTES, Script};
use od_order::script_kind::ScriptKind;
use od_script::{ScriptFault, read_script};
use od_text::list::List;
use std::alloc::Global;

/// How the top call ended.
#[derive(Drop)]
pub struct Ended<S, W, E, M> {
    /// The exit status: 0 where every command was answered and none refused, 1 where some were refused, 2 for other words
    /// than the program's, 3 where the input is no script, 4 where one of its grammars is not accepted, 7 where a read failed,
    /// 8 where a write did, 9 where memory was refused.
    pub status: u8,
    /// The answered commands, in the order of their answers. With status 8 the lines of the last one are cut short.
    pub history: Vec<Entry>,
    /// The source, as far as it was read.
    pub source: S,
    /// The sink, with the lines that it took.
    pub sink: W,
    /// The diagnostic sink, with the status's line from 2 on.
    pub diag: E,
    /// The maker of regular expressions, with those that it refused.
    pub maker: M,
}

/// How a run ended: its status, the answered commands, and the sink.
#[derive(Drop)]
struct Run<W> {
    status: Status,
    history: Vec<Entry>,
    sink: W,
}

/// A script whose grammars are made ready.
#[derive(Drop)]
struct Ready<R: Runner> {
    heads: Heads<R>,
    clients: List<List<Order>>,
}

/// Whether the words are those of `serve`.
pub fn is_serve(words: &[String]) -> bool
    ensures { result ≡ is_serve (map string_bytes words.now) }
{
    match words {
        [word] => word.as_str() == "serve",
        _ => false,
    }
}

/// Whether some reply is a refusal.
fn has_refusal(history: &[Entry]) -> bool
    ensures { result ≡ has_refusal history.now }
{
    history
        .iter()
        .any(|entry| matches!(entry.reply, Reply::Refused(_)))
}

/// How a run ended whose clients were followed to their end, or not, or whose sink failed.
fn run_status(followed: Result<bool, Failed>, history: &[Entry]) -> Status
    ensures { result ≡ run_status followed (has_refusal history.now) }
{
    match followed {
        Ok(true) => {
            if has_refusal(history) {
                Status::Refused
            } else {
                Status::Done
            }
        }
        Ok(false) => Status::NoMemory,
        Err(_) => Status::WriteFault,
    }
}

/// Runs a script's clients one after another, over no document and no session.
fn run_script<W: Sink, R: Runner + Drop>(alloc: Global, ready: Ready<R>, sink: W) -> Run<W>
    requires few { IsFew (script_in ready) }
    requires read { AreRead ready.heads }
    ensures outcome { (left : Option (Seq ℕ)) (refused : Seq (Seq ℕ)) → IsScriptOf left (script_in ready)
        → RunOutcome result.status result.history.items (record {
          left = left;
          before = W.written sink;
          now = W.written result.sink;
          refused = refused;
        }) }
    ensures ran { Ran result.status }
    ensures write { result.status ≡ Status.WriteFault → Rose (W.faults sink)
        (W.faults result.sink) }
    ensures later { W.faults sink ≤ W.faults result.sink }
{
    let Ready { heads, clients } = ready;
    let mut desk = Desk::new(alloc, heads, sink);
    let followed = run_clients(alloc, &mut desk, clients);
    let (history, sink) = desk.close();
    Run {
        status: run_status(followed, &history),
        history,
        sink,
    }
}

/// Makes the grammars of a script ready.
fn make_ready<M: PatternMaker>(
    alloc: Global,
    script: Script,
    maker: &mut M,
) -> Result<Ready<M::Runner>, Status>
where
    M::Runner: Drop,
    ensures script { IfOk result (λ ready. script_in ready ≡ script) }
    ensures read { IfOk result (λ ready. AreRead ready.heads) }
    ensures refused { (left : Option (Seq ℕ)) → IsScriptOf left script
        → IfErr result (NeverBegan left (refused_since (M.refused maker.old) (M.refused maker.new))) }
    ensures none_refused { OnOk result (M.refused maker.new ≡ M.refused maker.old) }
    ensures not_read { IfErr result (λ status. status ≡ Status.ReadFault → ⊥) }
    ensures made { IfErr result (λ status. RefusedBy status
        (refused_since (M.refused maker.old) (M.refused maker.new))) }
{
    let Script { heads, clients } = script;
    match make_heads(alloc, heads, maker) {
        Ok(heads) => Ok(Ready { heads, clients }),
        Err(HeadsFault::Refused { name, fault }) => Err(Status::BadGrammar { name, fault }),
        Err(HeadsFault::NoMemory) => Err(Status::NoMemory),
    }
}

/// Reads the source to its end, and the script in its bytes, which are given back, and makes its grammars ready.
fn read_source<S: Source, M: PatternMaker>(
    alloc: Global,
    source: &mut S,
    maker: &mut M,
) -> Result<Ready<M::Runner>, Status>
where
    M::Runner: Drop,
    ensures script { IfOk result (λ ready. IsScriptOf (S.left source.old) (script_in ready)) }
    ensures few { IfOk result (λ ready. IsFew (script_in ready)) }
    ensures accepted { IfOk result (λ ready. AreRead ready.heads) }
    ensures none_refused { OnOk result (M.refused maker.new ≡ M.refused maker.old) }
    ensures end { IfOk result (λ _. IsAtEnd (S.left source.new)) }
    ensures fault { IfErr result (NeverBegan (S.left source.old)
        (refused_since (M.refused maker.old) (M.refused maker.new))) }
    ensures made { IfErr result (λ status. RefusedBy status
        (refused_since (M.refused maker.old) (M.refused maker.new))) }
    ensures read { IfErr result (λ status. status ≡ Status.ReadFault
        → Rose (S.faults source.old) (S.faults source.new)) }
    ensures later { S.faults source.old ≤ S.faults source.new }
{
    let bytes = match read_all(alloc, source, SCRIPT_BYTES) {
        Ok(bytes) => bytes,
        Err(ReadAll::Failed) => return Err(Status::ReadFault),
        Err(ReadAll::TooLong) => {
            return Err(Status::NoScript {
                line: 0,
                kind: ScriptKind::TooLong,
            });
        }
        Err(ReadAll::NoMemory) => return Err(Status::NoMemory),
    };
    match read_script(alloc, bytes.get()) {
        Ok(script) => make_ready(alloc, script, maker),
        Err(ScriptFault::Bad { line, kind }) => Err(Status::NoScript { line, kind }),
        Err(ScriptFault::NoMemory) => Err(Status::NoMemory),
    }
}

/// Reads the source to its end, and the script in its bytes, and runs it.
fn serve<S: Source, W: Sink, M: PatternMaker>(
    alloc: Global,
    source: &mut S,
    sink: W,
    maker: &mut M,
) -> Run<W>
where
    M::Runner: Drop,
    ensures outcome { RunOutcome result.status result.history.items (record {
      left = S.left source.old;
      before = W.written sink;
      now = W.written result.sink;
      refused = refused_since (M.refused maker.old) (M.refused maker.new);
    }) }
    ensures not_usage { result.status ≡ Status.Usage → ⊥ }
    ensures end { Answered result.status → IsAtEnd (S.left source.new) }
    ensures read { result.status ≡ Status.ReadFault → Rose (S.faults source.old)
        (S.faults source.new) }
    ensures write { result.status ≡ Status.WriteFault → Rose (W.faults sink)
        (W.faults result.sink) }
    ensures complete { (Rose (S.faults source.old) (S.faults source.new) → ⊥)
        → (Rose (W.faults sink) (W.faults result.sink) → ⊥)
        → CanEndSo (S.left source.old)
        (refused_since (M.refused maker.old) (M.refused maker.new)) result.status }
    ensures made { RefusedBy result.status
        (refused_since (M.refused maker.old) (M.refused maker.new)) }
    ensures none_refused { Answered result.status → M.refused maker.new ≡ M.refused maker.old }
    ensures source_later { S.faults source.old ≤ S.faults source.new }
    ensures sink_later { W.faults sink ≤ W.faults result.sink }
{
    match read_source(alloc, source, maker) {
        Ok(ready) => run_script(alloc, ready, sink),
        Err(status) => Run {
            status,
            history: Vec::new(alloc),
            sink,
        },
    }
}

/// Runs the program: `serve` reads a script from the source, answers its commands, and writes one JSON line for each of them, and
/// for each printed mention, to the sink. Every other list of words is refused. A status from 2 on has its line on `diag`.
///
/// The history that comes back is one legal history of the script from no document and no session: each reply is what the
/// one-thread object answers there, each client's entries are its commands once and in order, the bytes that the sink took are
/// its lines, and each print shows the mentions that the rounds find in the documents that were committed when its session was
/// opened. The maker makes the regular expressions of the grammars.
pub fn odinson<S: Source, W: Sink, E: Sink, M: PatternMaker>(
    alloc: Global,
    words: &[String],
    source: S,
    sink: W,
    diag: E,
    maker: M,
) -> Ended<S, W, E, M>
where
    M::Runner: Drop,
    // One status: what the history and the sink are then, its line on `diag`, and that the call may end so.
    ensures ends { HasStatus result.status (λ status. Ends status result.history.items (record {
      served = is_serve (map string_bytes words.now);
      left = S.left source;
      read_faults = S.faults source;
      read_faults_now = S.faults result.source;
      before = W.written sink;
      now = W.written result.sink;
      write_faults = W.faults sink;
      write_faults_now = W.faults result.sink;
      line_before = E.written diag;
      line_now = E.written result.diag;
      line_faults = E.faults diag;
      line_faults_now = E.faults result.diag;
      refused = refused_since (M.refused maker) (M.refused result.maker);
    })) }

    // Usage exactly where the words are not those of the program; then nothing is read, nothing
    // answered and no expression made.
    ensures usage { (result.status ≡ 2) ↔ (is_serve (map string_bytes words.now) ≡ false) }
    ensures unread { result.status ≡ 2
        → (result.source ≡ source) × (result.sink ≡ sink) × (result.maker ≡ maker) }

    // A fault only where a count of faults rose. Counts never fall.
    ensures read { result.status ≡ 7 → Rose (S.faults source) (S.faults result.source) }
    ensures write { result.status ≡ 8 → Rose (W.faults sink) (W.faults result.sink) }
    ensures source_later { S.faults source ≤ S.faults result.source }
    ensures sink_later { W.faults sink ≤ W.faults result.sink }
    ensures diag_later { E.faults diag ≤ E.faults result.diag }

    // Where every command was answered, nothing is said on `diag`, and the source was read to its end.
    ensures quiet { (result.status ≡ 0) ⊎ (result.status ≡ 1) → result.diag ≡ diag }
    ensures end { (result.status ≡ 0) ⊎ (result.status ≡ 1) → IsAtEnd (S.left result.source) }

    // And no regular expression was refused.
    ensures made { (result.status ≡ 0) ⊎ (result.status ≡ 1)
        → M.refused result.maker ≡ M.refused maker }
{
    let mut source = source;
    let mut diag = diag;
    let mut maker = maker;
    let Run {
        status,
        history,
        sink,
    } = if is_serve(words) {
        serve(alloc, &mut source, sink, &mut maker)
    } else {
        Run {
            status: Status::Usage,
            history: Vec::new(alloc),
            sink,
        }
    };
    warn(&mut diag, &status);
    Ended {
        status: exit_status(&status),
        history,
        source,
        sink,
        diag,
        maker,
    }
}
