//! Tests of limits.
ghost use Rattle.std.specs.Prelude.{◌≡◌, nat_lt};
ghost use Rattle.od_rule_text.specs.Grammars.{limit_of, passed};

use od_rule_text::grammar_fault::{GrammarFault, GrammarLimit};

/// Whether a count passes a limit.
pub(crate) fn is_passed(limit: GrammarLimit, count: usize) -> bool
    ensures { result ≡ nat_lt (limit_of limit) count }
{
    (limit.limit() as usize) < count
}

/// That a limit is passed.
pub(crate) fn limit_fault(which: GrammarLimit) -> GrammarFault
    ensures { result ≡ passed which }
{
    let limit = which.limit();
    GrammarFault::Limit { which, limit }
}
