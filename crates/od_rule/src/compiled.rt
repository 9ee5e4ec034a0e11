//! All rules of a grammar made ready.
ghost use Rattle.std.specs.Prelude.{◌≡◌, ◌<◌, length, max, slice_get, IfOk, IsSomeAnd, Some};
ghost use Rattle.std.specs.List.{AllZip};
ghost use Rattle.od_matching.specs.Rounds.Phases.{greatest_first};
ghost use Rattle.od_rule.specs.Codes.{IsCodeOf, IsReadyRule};

use crate::code::RuleCode;
use od_pattern::rule::Rule;
use od_text::list::List;
use od_text::text::NoMemory;
use std::alloc::Global;
use std::marker::Model;

/// Rules in the order of a grammar, each made ready. Contracts see the rules.
#[derive(Drop)]
pub struct ReadyRules {
    rules: List<Rule>,
    ready: List<RuleCode>,
}

impl Model for ReadyRules {
    ghost use Rattle.std.specs.Coded.{codes};
    ghost use Rattle.std.specs.List.{AllZip};
    ghost use Rattle.std.specs.Prelude.{List};
    ghost use Rattle.od_pattern.specs.contracts.path.Path as path;
    ghost use Rattle.od_pattern.specs.contracts.pattern.Constraint as constraint;
    ghost use Rattle.od_pattern.specs.contracts.pattern.Surface as surface;
    ghost use Rattle.od_pattern.specs.declared.rule.Rule.{Rule as Asked};
    ghost use Rattle.od_rule.specs.Codes.{IsReadyRule};

    ghost Value = { List Asked };

    ghost coded = { Prim.hlevel (codes, constraint.the_row.coded, surface.the_row.coded, path.the_row.coded) };

    ghost view = { λ r. r.rules };

    ghost invariant = { λ r. AllZip IsReadyRule r.rules r.ready };
}

/// Rules made ready, one after another.
fn codes_of(alloc: Global, rules: &[Rule]) -> Result<List<RuleCode>, NoMemory>
    ensures { IfOk result (AllZip IsReadyRule rules.now) }
{
    let mut codes = List::new(alloc);
    for rule in rules {
        let code = RuleCode::make(alloc, rule)?;
        codes.push(code)?;
    }
    Ok(codes)
}

/// What stands at a place.
fn code_at(codes: &[RuleCode], place: usize) -> &RuleCode
    requires { place < length codes.now }
    ensures { slice_get codes.now place ≡ Some result.now }
{
    &codes[place]
}

/// The greater of two rounds.
fn greater(left: u32, right: u32) -> u32
    ensures { result ≡ max left right }
{
    if left < right { right } else { left }
}

/// The greatest first round of any of the rules; 0 where there is none.
pub fn greatest_first(rules: &[Rule]) -> u32
    ensures { result ≡ greatest_first rules.now }
{
    let mut greatest = 0;
    for rule in rules {
        greatest = greater(greatest, rule.priority.first);
    }
    greatest
}

impl ReadyRules {
    /// Makes rules ready: a program for each surface pattern, and the moves of each path.
    ///
    /// # Errors
    ///
    /// `NoMemory` where memory is refused, and where a pattern has 2^31 instructions or more.
    pub fn make(alloc: Global, rules: List<Rule>) -> Result<ReadyRules, NoMemory>
        ensures { IfOk result (λ ready. ready ≡ rules) }
    {
        let ready = codes_of(alloc, rules.get())?;
        Ok(ReadyRules { rules, ready })
    }

    /// The rules.
    pub fn rules(&self) -> &[Rule]
        ensures { result.now ≡ self.now }
    {
        self.rules.get()
    }

    /// A rule made ready, by its place in the order of the grammar, numbered from 0.
    pub fn code(&self, place: usize) -> &RuleCode
        requires { place < length self.now }
        ensures { IsSomeAnd (slice_get self.now place) (λ rule. IsCodeOf rule.body result.now) }
    {
        code_at(self.ready.get(), place)
    }
}
