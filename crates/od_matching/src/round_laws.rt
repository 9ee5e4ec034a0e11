//! The laws of rounds, which hold of every grammar and of all documents.
//!
//! A law is what a function here ensures; the function itself does nothing.
ghost use Rattle.od_matching.specs.Rounds.Laws.{NothingOutside, KeptIsRound, AllAreOpened, SeenIsRound, TermsAreTexts, RuleAfterRule, ItemsJoin, LaterIsNew, LaterAddNothing, FoundAreDistinct, FoundAreNew, RoundIsNext, StandingGoesOn, PhaseIsAt, MetInState, StatesGrow, WeightGrows, OneListOfSentences, SentencesAreComputed};

/// A round may leave out, for each rule, sentences on which the rule gives nothing.
pub fn candidates_suffice()
    ensures items { NothingOutside }
    ensures round { KeptIsRound }
    ensures openings { AllAreOpened }
{}

/// Over what is seen of segments that tile documents a round is that over the first of these documents.
pub fn seen_is_scanned()
    ensures { SeenIsRound }
{}

/// The terms that the index has at a token are the texts that constraints look at there.
pub fn terms_are_texts()
    ensures { TermsAreTexts }
{}

/// The rules of a round are those of the file whose priority holds it, one after another.
pub fn rules_in_order()
    ensures { RuleAfterRule }
{}

/// Documents that are committed later come after the others, and leave rounds over the first untouched.
pub fn later_documents_add()
    ensures items { ItemsJoin }
    ensures none { LaterIsNew }
    ensures round { LaterAddNothing }
{}

/// What a round found are distinct mentions, and none of them was there.
pub fn found_is_new()
    ensures distinct { FoundAreDistinct }
    ensures new { FoundAreNew }
{}

/// The number of rounds, whether the last added nothing, and the mentions without repeats decide the
/// next round and the phase. A round goes on from one such state to the next, mention by mention.
pub fn standing_decides()
    ensures round { RoundIsNext }
    ensures next { StandingGoesOn }
    ensures phase { PhaseIsAt }
    ensures met { MetInState }
{}

/// A state of mentions stays without repeats, and weighs more by what is new.
pub fn states_grow()
    ensures state { StatesGrow }
    ensures weight { WeightGrows }
{}

/// The sentences with a mention of a label have exactly one ascending list.
pub fn sentences_are_unique()
    ensures one { OneListOfSentences }
    ensures computed { SentencesAreComputed }
{}
