//! The laws of histories, for any object that a history goes on from.
//!
//! A law is what a function here ensures; the function itself does nothing.
ghost use Rattle.od_session.specs.Parts.{nothing};
ghost use Rattle.od_model.specs.Object.Sound.{IsSound};
ghost use Rattle.od_model.specs.History.Laws.{EveryCommandIsAnswered, OneSegmentSettles, OneAnswer, OneEffect, LegalGoesOn, FrontsAreLegal, CommandsDecide};
ghost use Rattle.od_model.specs.History.Laws.{FollowingBegins, FrontsBegin, NothingFollows, SoundnessIsKept, PrintsShowRounds};
ghost use Rattle.od_model.specs.History.Laws.{DocumentsGrow, HeldSessionsStay, NextRoundsStay, HeldAnswersStay};
ghost use Rattle.od_model.specs.History.Alike.{SessionsWereOpened, OneOpening, AlikeInOneHistory, AlikeAcrossStarts};
ghost use Rattle.od_model.specs.History.Alike.{EqualRoundsShowSame, FinishedPrintsAgree, LaterPrintsGoOn, ResumedPrintsAgree};

/// The object answers every command of every caller. To `Settle` one segment with all committed sentences is an
/// answer, or no segment where there is no sentence.
pub fn every_command_is_answered()
    ensures answer { EveryCommandIsAnswered }
    ensures settle { OneSegmentSettles }
{}

/// The object has one answer to a command, but to `Settle`, and all its answers to a command have one effect.
pub fn one_answer_only()
    ensures reply { OneAnswer }
    ensures effect { OneEffect }
{}

/// A legal history may go on with any command of any caller, and each front of it is a legal history.
pub fn legal_histories_go_on()
    ensures more { LegalGoesOn }
    ensures front { FrontsAreLegal }
{}

/// The commands of a legal history, with their callers and in their order, decide the object that it leads to.
pub fn commands_decide_the_object()
    ensures { CommandsDecide }
{}

/// Entries that unfold orders are the beginning of an unfolding, and so is each front of them.
pub fn orders_begin()
    ensures whole { FollowingBegins }
    ensures front { FrontsBegin }
{}

/// Nothing goes on behind entries that unfold the orders: no unfolding is a proper front of another one,
/// nor of the beginning of one.
pub fn no_whole_run_is_a_front_of_another()
    ensures { NothingFollows }
{}

/// A legal history from a sound object, whose grammars are accepted, leads to a sound object.
pub fn soundness_is_kept()
    ensures { SoundnessIsKept }
{}

/// No document and no session are a sound object.
pub fn the_empty_start_is_sound()
    ensures { IsSound nothing }
{}

/// Each print of a legal history from a sound object, whose grammars are accepted, shows the rounds over the
/// documents that its session was opened with.
pub fn prints_show_the_rounds()
    ensures { PrintsShowRounds }
{}

/// Committed documents stay as they are and where they are; entries only add further ones behind them.
pub fn documents_only_grow()
    ensures { DocumentsGrow }
{}

/// The session that a caller holds is left alone by others' entries: it stays the same, with its rounds, documents,
/// limit and holder; its next round over the documents of then is the same; and so is the answer
/// to the caller's next step, print or release of it.
pub fn held_sessions_are_untouched()
    ensures session { HeldSessionsStay }
    ensures round { NextRoundsStay }
    ensures answers { HeldAnswersStay }
{}

/// Each session that a legal history leads to was opened by an entry of it or was there at the start, and in one way.
pub fn a_session_is_opened_once()
    ensures opened { SessionsWereOpened }
    ensures once { OneOpening }
{}

/// Two prints of the session of one name are alike, their sessions opened with one grammar over the same documents and
/// with one limit: in one legal history, and also where the second one stands in a history that goes on from what
/// the first history led to, with all sessions let go, as when a server starts again.
pub fn prints_of_one_session_are_alike()
    ensures history { AlikeInOneHistory }
    ensures starts { AlikeAcrossStarts }
{}

/// Two prints that are alike show the same when both sessions are finished, and whenever they have as many rounds: the
/// same mentions, and under one name the same lines. So a session that is resumed prints what it would have printed.
pub fn finished_prints_are_equal()
    ensures finished { FinishedPrintsAgree }
    ensures rounds { EqualRoundsShowSame }
{}

/// Of two prints that are alike the one after more rounds goes on from the other: its mentions begin with those, and
/// under one name so do its lines.
pub fn later_prints_go_on()
    ensures { LaterPrintsGoOn }
{}

/// A session that is finished prints the same lines before a new start and after it.
pub fn resumed_sessions_print_the_same()
    ensures { ResumedPrintsAgree }
{}
