//! Sizes of patterns, counted to one more than a pattern may have.
ghost use Rattle.std.specs.Prelude.{◌≡◌, ℕ, ◌+◌, ◌≤◌, Option, suc};
ghost use Rattle.od_language.specs.declared.limits.TheConstants.{PATTERN_SIZE};
ghost use Rattle.od_syntax.specs.Sizes.{counted, repeat_size};

use od_language::limits::PATTERN_SIZE;

/// A size as it is counted.
fn up_to(size: u64) -> u32
    ensures { result ≡ counted size }
{
    if size > PATTERN_SIZE as u64 {
        return PATTERN_SIZE as u32 + 1;
    }
    size as u32
}

/// The size of two parts together.
#[tactic(auto, using(crate::proofs::Counted::counted_most))]
pub fn together(a: u32, b: u32) -> u32
    requires { (a ≤ suc PATTERN_SIZE) × (b ≤ suc PATTERN_SIZE) }
    ensures { result ≡ counted (a + b) }
{
    up_to(a as u64 + b as u64)
}

/// The size of choices with one more, which counts for one more than its own size.
#[tactic(auto, using(crate::proofs::Counted::counted_most))]
pub fn one_more(sum: u32, size: u32) -> u32
    requires { (sum ≤ suc PATTERN_SIZE) × (size ≤ suc PATTERN_SIZE) }
    ensures { result ≡ counted (sum + suc size) }
{
    up_to(sum as u64 + size as u64 + 1)
}

/// The size of a repeat, from that of its body.
pub fn repeated_size(least: u32, most: Option<u32>, body: u32) -> u32
    requires { body ≤ suc PATTERN_SIZE }
    ensures { result ≡ counted (repeat_size least most body) }
{
    let turns = match most {
        Some(most) => most as u64,
        None => least as u64 + 1,
    };
    up_to(turns * (body as u64 + 1))
}
