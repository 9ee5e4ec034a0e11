//! The laws of derivations, scans, paths and sameness, which hold of every pattern, sentence and mention.
//!
//! A law is what a function here ensures; the function itself does nothing.
ghost use Rattle.od_matching.specs.Matching.Ascending.{CandidatesAreFew, CandidatesAreThose, OneListOfCandidates};
ghost use Rattle.od_matching.specs.Matching.Counts.{EventCountIsNone, HopCountIsNone, ProductsGrow};
ghost use Rattle.od_matching.specs.Matching.Dependence.{ReachDependsOnAsked, RuleDependsOnAsked, ScanDependsOnAsked, StateOnlyByLabels};
ghost use Rattle.od_matching.specs.Matching.Laws.{BestExists, CapturesStayWithin, NoProperFront, OneBest, OneScan, ReachIsComputed, SameChoicesAgree, SamenessIsEquality, ScanIsApart, ScanIsComputed, ScanIsShort, StaysWithin, TakesWhereNotNullable};

/// The choices of a derivation decide its end and its captures, and none goes on where another has ended.
/// It takes no token outside the sentence, and its captures lie within what it takes.
pub fn choices_decide()
    ensures same { SameChoicesAgree }
    ensures front { NoProperFront }
    ensures within { StaysWithin }
    ensures captures { CapturesStayWithin }
{}

/// A pattern has at most one best derivation from a place, and one wherever it has a derivation.
pub fn best_is_unique()
    ensures unique { OneBest }
    ensures exists { BestExists }
{}

/// A pattern that is not nullable takes a token.
pub fn takes_where_not_nullable()
    ensures { TakesWhereNotNullable }
{}

/// A pattern has exactly one list of matches in a sentence, and it is the list that is computed.
pub fn scan_is_computed()
    ensures computed { ScanIsComputed }
    ensures unique { OneScan }
{}

/// The matches of a pattern in a sentence are in order and share no token, so there are no more of them than tokens.
pub fn scan_is_apart()
    ensures apart { ScanIsApart }
    ensures short { ScanIsShort }
{}

/// From some tokens of a sentence a path leads to exactly the tokens that are computed.
pub fn reach_is_computed()
    ensures { ReachIsComputed }
{}

/// Mentions without repeats are mentions of which no two are equal: the test of sameness is equality.
pub fn sameness_is_equality()
    ensures { SamenessIsEquality }
{}

/// The candidates with a label are the spans that have it and a reached token, ascending, each once.
/// With or without a label they are no more than the square of the number of tokens.
pub fn candidates_ascend()
    ensures candidates { CandidatesAreThose }
    ensures unique { OneListOfCandidates }
    ensures few { CandidatesAreFew }
{}

/// Hops and events have a count exactly where what they find is too much.
pub fn counts_are_of_lists()
    ensures event { EventCountIsNone }
    ensures hop { HopCountIsNone }
{}

/// The products of an event may be made from the left, argument by argument.
pub fn products_grow()
    ensures { ProductsGrow }
{}

/// What is found depends on a sentence only through what is asked of it, and on a state only through the labels that are named.
pub fn finds_what_is_asked()
    ensures scan { ScanDependsOnAsked }
    ensures reach { ReachDependsOnAsked }
    ensures rule { RuleDependsOnAsked }
    ensures state { StateOnlyByLabels }
{}
