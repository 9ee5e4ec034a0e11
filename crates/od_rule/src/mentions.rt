//! Mentions from the matches of a rule.
ghost use Rattle.std.specs.Prelude.{◌≡◌, ◌++◌, [], map, IfOk};
ghost use Rattle.od_matching.specs.Matching.Rules.{mention_at};
ghost use Rattle.od_rule.specs.Left.{left_in};

use crate::finder::Found;
use od_extraction::mention::{Match, Mention};
use od_pattern::rule::Rule;
use od_text::list::List;
use od_text::text::{Copied, NoMemory};
use std::alloc::Global;

/// The mention that a match of a rule is, on a sentence of a document.
///
/// # Errors
///
/// `NoMemory` where memory is refused.
pub fn mention_at(
    alloc: Global,
    rule: &Rule,
    document: u32,
    sentence: u32,
    found: Match,
) -> Result<Mention, NoMemory>
    ensures { IfOk result (λ mention. mention ≡ mention_at rule.now document sentence found) }
{
    Ok(Mention {
        document,
        sentence,
        start: found.span.start,
        end: found.span.end,
        label: rule.label.copy(alloc)?,
        rule: rule.name.copy(alloc)?,
        parts: found.captures,
    })
}

/// The mentions of all matches that are left, in their order; of a hop also equal ones. Who may stop
/// before the last one takes them one at a time instead.
///
/// # Errors
///
/// `NoMemory` where memory is refused.
pub fn mentions_left(
    alloc: Global,
    rule: &Rule,
    document: u32,
    sentence: u32,
    found: Found,
) -> Result<List<Mention>, NoMemory>
    ensures { IfOk result (λ mentions.
        mentions ≡ map (mention_at rule.now document sentence) (left_in found.entry)) }
{
    let mut left = found;
    let mut mentions = List::new(alloc);
    while let Some(next) = left.next(alloc)? {
        mentions.push(mention_at(alloc, rule, document, sentence, next)?)?;
    }
    Ok(mentions)
}
