//! What is told of a session, from its state and the session that runs.
ghost use Rattle.std.specs.Prelude.{◌≡◌, ◌+◌, ◌<◌, ◌≤◌, List as Seq, ◌∷◌, [], ◌++◌, length, IfOk, MatchResult, Ok, Err};
ghost use Rattle.od_document.specs.declared.doc.Doc.{Doc};
ghost use Rattle.od_extraction.specs.Joined.{joined};
ghost use Rattle.od_extraction.specs.declared.mention.RoundResult.TheVariants as round;
ghost use Rattle.od_index.specs.Views.{sites_seen};
ghost use Rattle.od_matching.specs.Rounds.Standing.{next_round};
ghost use Rattle.od_model.specs.Object.Replies.{held_as, reply_print, reply_round};
ghost use Rattle.od_pattern.specs.declared.grammar.Grammar.{Grammar};
ghost use Rattle.od_rounds.specs.Gives.{Gives};
ghost use Rattle.od_session.specs.Parts.{phase_with, round_at};
ghost use Rattle.od_workspace.specs.Workspaces.Sessions.{IsRunning};
ghost use Rattle.od_workspace.specs.Workspaces.Steps.{step_reply};

use od_command::history::{Refusal, Reply};
use od_extraction::phase::Phase;
use od_mentions::State;
use od_rounds::{RoundFault, Session};
use od_segment::Steps;
use od_session::object::SessionState;
use od_text::text::NoMemory;
use std::alloc::Global;
use std::marker::Brand;
use std::sync::ledger::{Blank, Ledger};

/// Whether the caller holds a session, or why not.
pub fn held(state: &SessionState, caller: u32) -> Result<(), Refusal>
    ensures { MatchResult result (λ _. held_as caller state.now state.now.holder ≡ Ok state.now)
        (λ refusal. held_as caller state.now state.now.holder ≡ Err refusal) }
{
    match state.holder {
        None => Err(Refusal::NotHeld),
        Some(owner) => {
            if owner == caller {
                Ok(())
            } else {
                Err(Refusal::Busy { owner })
            }
        }
    }
}

/// Whether the rounds of a session go on.
fn phase(state: &SessionState, running: &Session) -> Phase
    requires { (docs : Seq Doc) × IsRunning docs state.now running.now }
    ensures { result ≡ phase_with state.now state.now.rounds }
{
    running.phase()
}

/// The number of its rounds.
fn round(state: &SessionState, running: &Session) -> u32
    requires { (docs : Seq Doc) × IsRunning docs state.now running.now }
    ensures { result ≡ length state.now.rounds }
{
    state.rounds.len() as u32
}

/// The number of its mentions.
fn mentions(state: &SessionState, running: &Session) -> u32
    requires { (docs : Seq Doc) × IsRunning docs state.now running.now }
    ensures { result ≡ length (joined state.now.rounds) }
{
    running.mentions().len() as u32
}

/// The answer to a print by the holder.
pub fn printed(state: &SessionState, running: &Session) -> Reply
    requires { (docs : Seq Doc) × IsRunning docs state.now running.now }
    ensures { result ≡ reply_print (Ok state.now) }
{
    Reply::Printed {
        round: round(state, running),
        mentions: mentions(state, running),
        phase: phase(state, running),
    }
}

/// The answer to a resume that was taken.
pub fn resumed(state: &SessionState, running: &Session) -> Reply
    requires { (docs : Seq Doc) × IsRunning docs state.now running.now }
    ensures { result ≡ Reply.Resumed state.now.documents state.now.limit
        (length state.now.rounds) (length (joined state.now.rounds))
        (phase_with state.now state.now.rounds) }
{
    Reply::Resumed {
        documents: state.documents,
        limit: state.limit,
        round: round(state, running),
        mentions: mentions(state, running),
        phase: phase(state, running),
    }
}

/// What the next round of a session finds.
fn round_of<L: Ledger>(alloc: Global, running: &Session, blank: Blank) -> Result<State, RoundFault>
    requires name { blank.name ≡ L.name }
    requires parts { blank.parts ≡ L.parts }
    requires some { 0 < blank.parts }
    ensures { (g : Grammar) → g.rules ≡ running.now.rules
        → Gives result (next_round (sites_seen running.now.seen) g running.now.at) }
{
    let mut steps = Steps::<L>::open(blank);
    running.round(alloc, &mut steps)
}

/// What the next round adds, where it is not refused.
fn found(
    alloc: Global,
    state: &SessionState,
    running: &Session,
) -> Result<Result<State, Refusal>, NoMemory>
    ensures { IfOk result (λ next. (docs : Seq Doc) → IsRunning docs state.now running.now
        → MatchResult next (λ added. round_at docs state.now ≡ round.Found added)
        (λ refusal. reply_round state.now (round_at docs state.now) ≡ Reply.Refused refusal)) }
{
    match round_of::<Brand>(alloc, running, Blank::new(1)) {
        Ok(added) => Ok(Ok(added)),
        Err(
            RoundFault::Crowded {
                rule,
                document,
                sentence,
                count,
            },
        ) => Ok(Err(Refusal::Crowded {
            rule,
            document,
            sentence,
            count,
        })),
        Err(RoundFault::TooMany { weight }) => Ok(Err(Refusal::TooMany { weight })),
        Err(RoundFault::NoMemory) => Err(NoMemory),
    }
}

/// The mentions that the next round adds, where the rounds go on and it is not refused.
pub fn next(
    alloc: Global,
    state: &SessionState,
    running: &Session,
) -> Result<Result<State, Refusal>, NoMemory>
    requires { (docs : Seq Doc) × IsRunning docs state.now running.now }
    ensures { IfOk result (λ next. (docs : Seq Doc) → IsRunning docs state.now running.now
        → MatchResult next
        (λ added. (phase_with state.now state.now.rounds ≡ Phase.Going)
        × (round_at docs state.now ≡ round.Found added))
        (λ refusal. step_reply docs state.now ≡ Reply.Refused refusal)) }
{
    match phase(state, running) {
        Phase::Finished => {
            return Ok(Err(Refusal::Finished {
                round: round(state, running),
            }));
        }
        Phase::AtLimit => {
            return Ok(Err(Refusal::AtLimit {
                round: round(state, running),
            }));
        }
        Phase::Going => {}
    }
    found(alloc, state, running)
}

/// The answer to a step whose round added these mentions.
pub fn stepped(state: &SessionState, running: &Session, added: &State) -> Reply
    requires { (docs : Seq Doc) × IsRunning docs state.now running.now
        × (round_at docs state.now ≡ round.Found added.now) }
    ensures { result ≡ reply_round state.now (round.Found added.now) }
{
    Reply::Stepped {
        round: round(state, running) + 1,
        added: added.len() as u32,
        phase: running.phase_with(added),
    }
}
