//! Faults of rules.
ghost use Rattle.std.specs.Prelude.{◌≡◌};
ghost use Rattle.od_rule_text.specs.Grammars.{passed};

use od_rule_text::grammar_fault::{GrammarFault, GrammarLimit};

/// That a limit is passed.
pub(crate) fn passed(which: GrammarLimit) -> GrammarFault
    ensures { result ≡ passed which }
{
    GrammarFault::Limit {
        which,
        limit: which.limit(),
    }
}
