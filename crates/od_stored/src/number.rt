//! Numbers as bytes: seven bits in each, the least first, in the shortest form.
ghost use Rattle.std.specs.Prelude.{◌≡◌, ◌<◌, ◌≤◌, ◌++◌, IfOk, MatchResult, OnOk, Ok, Err};
ghost use Rattle.od_stored.specs.Numbers.{limit, number_bytes, number_read, septets_read};

use crate::fault::NumberFault;
use crate::limits::NUMBER_END;
use od_text::text::NoMemory;

/// Writes a number's bytes behind those that are there.
pub fn put_number(out: &mut Vec<u8>, n: u32) -> Result<(), NoMemory>
    ensures { OnOk result (out.new.items ≡ out.old.items ++ number_bytes n) }
{
    let mut above = n;
    while above >= 128 {
        out.push((above % 128 + 128) as u8)?;
        above /= 128;
    }
    out.push(above as u8)?;
    Ok(())
}

/// What stands at the front of some bytes, in at most so many bytes behind the first.
fn septets(further: u32, bytes: &[u8]) -> Result<(u64, &[u8]), NumberFault>
    requires { further ≤ 4 }
    ensures is { MatchResult result (λ x. septets_read further bytes.now ≡ Ok (x.0, x.1.now))
        (λ e. septets_read further bytes.now ≡ Err e) }
    ensures small { IfOk result (λ x. x.0 < limit further) }
{
    match bytes {
        [] => Err(NumberFault::Ends),
        [last, rest @ ..] if *last < 128 => Ok((u64::from(*last), rest)),
        [low, rest @ ..] => {
            if further == 0 {
                return Err(NumberFault::Wrong);
            }
            let (above, left) = septets(further - 1, rest)?;
            if above == 0 {
                return Err(NumberFault::Wrong);
            }
            Ok((u64::from(*low) - 128 + 128 * above, left))
        }
    }
}

/// The number at the front of some bytes, and the bytes behind it.
pub fn number_read(bytes: &[u8]) -> Result<(u32, &[u8]), NumberFault>
    ensures { MatchResult result (λ x. number_read bytes.now ≡ Ok (x.0, x.1.now))
        (λ e. number_read bytes.now ≡ Err e) }
{
    let (n, rest) = septets(4, bytes)?;
    if n < NUMBER_END {
        Ok((n as u32, rest))
    } else {
        Err(NumberFault::Wrong)
    }
}
