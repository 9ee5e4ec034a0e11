//! Priorities.
ghost use Rattle.std.specs.Prelude.{◌≡◌, ◌-◌, ◌≤◌, ◌<◌, MatchOption};
ghost use Rattle.std.specs.List.{list_all};
ghost use Rattle.std.specs.Char.{is_ascii_digit};
ghost use Rattle.od_text.specs.Cuts.{split_once};
ghost use Rattle.od_language.specs.Spelling as spelling;
ghost use Rattle.od_language.specs.declared.limits.TheConstants.{GREATEST_NUMBER};
ghost use Rattle.od_rule_text.specs.Priorities as priorities;

use od_language::limits::GREATEST_NUMBER;
use od_pattern::rule::Priority;
use od_rule_text::limits::LAST_ROUND;
use od_text::cut::cut;

/// Whether each byte is an ASCII digit.
fn are_digits(text: &[u8]) -> bool
    ensures { result ≡ list_all is_ascii_digit text.now }
{
    text.iter().all(|c| c.is_ascii_digit())
}

/// The value of a digit.
fn digit(c: u8) -> u32
    ensures value { result ≡ c - 48 }
    ensures most { result < 256 }
{
    u32::from(c.saturating_sub(b'0'))
}

/// The value of digits behind a number, up to the greatest.
#[tactic(auto, using(crate::proofs::Numbers::value_grows))]
fn number_from(n: u32, digits: &[u8]) -> Option<u32>
    requires { n ≤ GREATEST_NUMBER }
    ensures { MatchOption result (GREATEST_NUMBER < spelling.value_from n digits.now)
        (λ v. (v ≡ spelling.value_from n digits.now) × (v ≤ GREATEST_NUMBER)) }
{
    match digits {
        [] => Some(n),
        [d, rest @ ..] => {
            let next = n * 10 + digit(*d);
            if next > GREATEST_NUMBER {
                return None;
            }
            number_from(next, rest)
        }
    }
}

/// The number of these digits, without a leading zero.
fn number(digits: &[u8]) -> Option<u32>
    ensures { result ≡ spelling.number digits.now }
{
    match digits {
        [] => None,
        [d, rest @ ..] => {
            if *d == b'0' && rest.len() != 0 {
                return None;
            }
            number_from(0, digits)
        }
    }
}

/// The round that a text names.
fn round_of(text: &[u8]) -> Option<u32>
    ensures { result ≡ priorities.round_of text.now }
{
    if !are_digits(text) {
        return None;
    }
    match number(text) {
        Some(n) => {
            if 1 <= n && n <= LAST_ROUND {
                Some(n)
            } else {
                None
            }
        }
        None => None,
    }
}

/// In one round.
fn only_in(text: &[u8]) -> Option<Priority>
    ensures { result ≡ priorities.only_in (priorities.round_of text.now) }
{
    match round_of(text) {
        Some(n) => Some(Priority {
            first: n,
            last: Some(n),
        }),
        None => None,
    }
}

/// In one round and all later ones.
fn always_from(text: &[u8]) -> Option<Priority>
    ensures { result ≡ priorities.always_from (priorities.round_of text.now) }
{
    match round_of(text) {
        Some(n) => Some(Priority {
            first: n,
            last: None,
        }),
        None => None,
    }
}

/// From one round to another, which is no earlier one.
fn between(first: u32, last: u32) -> Option<Priority>
    ensures { result ≡ priorities.from_to (Some first) (Some last) }
{
    if first <= last {
        Some(Priority {
            first,
            last: Some(last),
        })
    } else {
        None
    }
}

/// From the round that a text names to that which another names.
fn from_to(first: &[u8], last: &[u8]) -> Option<Priority>
    ensures { result ≡ priorities.from_to (priorities.round_of first.now)
        (priorities.round_of last.now) }
{
    match round_of(first) {
        Some(n) => match round_of(last) {
            Some(m) => between(n, m),
            None => None,
        },
        None => None,
    }
}

/// A priority without a `-`.
fn without_dash(text: &[u8]) -> Option<Priority>
    ensures { result ≡ priorities.cut_at_plus text.now (split_once 43 text.now) }
{
    match cut(text, b'+') {
        Some((before, behind)) => {
            if behind.is_empty() {
                always_from(before)
            } else {
                None
            }
        }
        None => only_in(text),
    }
}

/// The priority of these bytes.
fn priority_of(text: &[u8]) -> Option<Priority>
    ensures { result ≡ priorities.cut_at_dash text.now (split_once 45 text.now) }
{
    match cut(text, b'-') {
        Some((first, last)) => from_to(first, last),
        None => without_dash(text),
    }
}

/// The priority that a text is: `n` for one round, `n-m` for the rounds from one to another, `n+`
/// for one round and all later ones. Rounds are numbered from 1 to 100, without leading zeros, and
/// n is not above m.
#[tactic(auto, unfolding(od_rule_text::specs::Priorities::priority_of))]
pub fn read_priority(text: &str) -> Option<Priority>
    ensures { result ≡ priorities.priority_of text.now }
{
    priority_of(text.as_bytes())
}
