//! Sizes of patterns, as they are counted: up to one above the greatest that a pattern may have.
ghost use Rattle.std.specs.Prelude.{◌≡◌, ◌+◌, ◌≤◌, suc};
ghost use Rattle.od_language.specs.declared.limits.TheConstants.{PATTERN_SIZE};
ghost use Rattle.od_syntax.specs.Sizes.{counted as counted_size, repeat_size};

use od_language::limits::PATTERN_SIZE;

/// A size as it is counted.
fn counted(size: usize) -> usize
    ensures { result ≡ counted_size size }
{
    if PATTERN_SIZE < size {
        return PATTERN_SIZE + 1;
    }
    size
}

/// The size of two parts together, from theirs as they are counted.
pub fn together(left: usize, right: usize) -> usize
    requires { (left ≤ suc PATTERN_SIZE) × (right ≤ suc PATTERN_SIZE) }
    ensures { result ≡ counted_size (left + right) }
{
    counted(left + right)
}

/// The sizes of some choices and of one more, each with one more than its own, as they are counted.
pub fn one_more(before: usize, size: usize) -> usize
    requires { (before ≤ suc PATTERN_SIZE) × (size ≤ suc PATTERN_SIZE) }
    ensures { result ≡ counted_size (before + suc size) }
{
    counted(before + size + 1)
}

/// The size of a repeat, from that of its body as it is counted.
pub fn repeated(least: u32, most: Option<u32>, body: usize) -> usize
    requires { body ≤ suc PATTERN_SIZE }
    ensures { result ≡ counted_size (repeat_size least most body) }
{
    match most {
        Some(most) => counted(most as usize * (body + 1)),
        None => counted((least as usize + 1) * (body + 1)),
    }
}
