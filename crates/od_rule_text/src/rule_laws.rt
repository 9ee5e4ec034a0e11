//! Laws of what rule files and grammars say, each the contract of a function that does nothing.
//!
//! The laws of grammars hold however the texts of patterns are read.
ghost use Rattle.od_rule_text.specs.Laws.{HasTextFaults, KeepsOrder, KeepsPlainTexts};
ghost use Rattle.od_rule_text.specs.Laws.{KeepsWithMoreRoom, MakesGrammars, ReadsBack};
ghost use Rattle.od_rule_text.specs.Laws.{ReadsGrammars, ReadsPriorities, ReadsRuleFiles, TellsLines};
ghost use Rattle.od_rule_text.specs.Meanings.{ExpandsAsMeant};
ghost use Rattle.od_rule_text.specs.Returns.{ReadsReturns};

/// A rule file has some items with some entries each.
/// Keys are identifiers, and differ within an item and among the variables.
pub fn reads_rule_files()
    ensures { ReadsRuleFiles }
{}

/// A rule file with such keys, written out with each value between double quotes,
/// is read as what was written.
pub fn reads_back()
    ensures { ReadsBack }
{}

/// A rule file without carriage returns says the same with one before each line feed.
pub fn reads_returns()
    ensures { ReadsReturns }
{}

/// The line of a rule file's first fault is one of its lines, or 1.
pub fn tells_lines()
    ensures { TellsLines }
{}

/// A text in which no `${` stands is its own expansion, whatever the variables.
pub fn keeps_plain_texts()
    ensures { KeepsPlainTexts }
{}

/// An expansion is exactly what the text gives, with each variable for what its text gives.
/// An unknown variable is one that the text reaches and that is not there;
/// a cycle is told of a variable that the text reaches and that its own text reaches again.
pub fn expands_as_meant()
    ensures { ExpandsAsMeant }
{}

/// A text is a priority exactly where it is `n`, `n-m` or `n+`, in decimal digits,
/// with 1 <= n <= m <= 100.
pub fn reads_priorities()
    ensures { ReadsPriorities }
{}

/// A grammar has a rule for each item of its rule file, in the order of the file:
/// the one that the item says.
pub fn keeps_order()
    ensures { KeepsOrder }
{}

/// The grammar of a text has its kind and its text.
/// The names of its rules differ, the labels that they name are those of rules,
/// and there is room for its expressions.
pub fn reads_grammars()
    ensures { ReadsGrammars }
{}

/// Where there is more room for expressions, the same grammar is read.
pub fn keeps_with_more_room()
    ensures { KeepsWithMoreRoom }
{}

/// The first fault of a text is neither want of memory nor an expression that was refused.
pub fn has_text_faults()
    ensures { HasTextFaults }
{}

/// A grammar is made where its text is one and all its expressions are accepted.
/// Else the fault is the first of the text, or tells the first expression that is not accepted.
pub fn makes_grammars()
    ensures { MakesGrammars }
{}
