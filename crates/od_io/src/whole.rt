//! Reading a source to its end, and writing all of some bytes.
ghost use Rattle.std.specs.Prelude.{◌≡◌, ◌⊎◌, ◌+◌, ◌<◌, ◌≤◌, IfOk, OnOk, OnErr, IfErr, IfSome, IsErrOf, IsOkUnless, length, take, vec_len};
ghost use Rattle.std.specs.Io.KnownBytes.{Appends, Consumes, IsAtEnd};
ghost use Rattle.od_io.specs.Streams.Count.{Rose, Stayed};
ghost use Rattle.od_io.specs.Streams.Reading.{ConsumesMoreWhere, IfAtMost, IfMore};
ghost use Rattle.od_io.specs.Streams.Writing.{AppendsProperPrefix};
ghost use Rattle.od_io.specs.declared.whole.ReadAll.TheVariants.{NoMemory as OutOfMemory, Failed as ReadFailed};

use super::streams::{Failed, Sink, Source};
use od_text::text::{Bytes, NoMemory};
use std::alloc::Global;

/// Why the bytes of a source were not read to its end.
#[derive(Clone, Copy, Debug, PartialEq, Eq)]
pub enum ReadAll {
    /// A read failed.
    Failed,
    /// There are more bytes than were allowed.
    TooLong,
    /// Memory was refused.
    NoMemory,
}

impl From<NoMemory> for ReadAll {
    ghost from_gives = { λ _ cause. cause ≡ OutOfMemory };

    fn from(_refused: NoMemory) -> ReadAll {
        ReadAll::NoMemory
    }
}

impl From<Failed> for ReadAll {
    ghost from_gives = { λ _ cause. cause ≡ ReadFailed };

    fn from(_failed: Failed) -> ReadAll {
        ReadAll::Failed
    }
}

/// How many bytes are asked for at once, at most.
const PIECE: usize = 65536;

/// Writes all of the bytes, in as many pieces as the sink wants. Where a write fails, a proper
/// prefix of them was written.
pub fn write_whole<W: Sink>(sink: &mut W, bytes: &[u8]) -> Result<(), Failed>
    ensures whole { OnOk result (Appends (W.written sink.old) (W.written sink.new) bytes.now) }
    ensures part { OnErr result (AppendsProperPrefix (W.written sink.old) (W.written sink.new) bytes.now) }
    ensures failed { OnErr result (Rose (W.faults sink.old) (W.faults sink.new)) }
    ensures later { W.faults sink.old ≤ W.faults sink.new }
{
    let mut at = 0;
    while at < bytes.len() {
        at += sink.write(&bytes[at..])?;
    }
    Ok(())
}

/// Makes room for a read behind the first `filled` bytes, where there is none: zeros, at most
/// `PIECE` of them, and up to one byte more than `most`, which shows that there are too many.
///
/// The memory grows by half of what it holds. The C library moves the pages of a large block that
/// grows, so its bytes are not copied, and stand once.
fn make_room(bytes: &mut Vec<u8>, filled: usize, most: usize) -> Result<(), NoMemory>
    requires fits { filled ≤ vec_len bytes.old }
    requires few { filled ≤ most }
    requires most { vec_len bytes.old ≤ most + 1 }
    ensures front { take filled bytes.new.items ≡ take filled bytes.old.items }
    ensures fits { filled ≤ vec_len bytes.new }
    ensures room { OnOk result (filled < vec_len bytes.new) }
    ensures most { vec_len bytes.new ≤ most + 1 }
{
    let len = bytes.len();
    if filled < len {
        return Ok(());
    }
    let left = most - len;
    let more = left.saturating_add(1).min(PIECE);
    if bytes.capacity() - len < more {
        bytes.reserve_exact((len / 2).min(left).max(more))?;
    }
    bytes.resize(len + more, 0)?;
    Ok(())
}

/// The bytes up to the end of the source, of which there are at most `most`.
fn read_up_to<S: Source>(alloc: Global, source: &mut S, most: usize) -> Result<Vec<u8>, ReadAll>
    ensures bytes { IfOk result (λ bytes. Consumes (S.left source.old) (S.left source.new) bytes.items) }
    ensures end { OnOk result (IsAtEnd (S.left source.new)) }
    ensures most { IfOk result (λ bytes. vec_len bytes ≤ most) }
    ensures over { IfErr result (λ cause.
        ConsumesMoreWhere most (cause ≡ ReadAll.TooLong) (S.left source.old) (S.left source.new)) }
    ensures failed { IsErrOf result ReadAll.Failed → Rose (S.faults source.old) (S.faults source.new) }
    ensures later { S.faults source.old ≤ S.faults source.new }
{
    let mut bytes = Vec::new(alloc);
    let mut filled = 0;
    while filled <= most {
        make_room(&mut bytes, filled, most)?;
        let got = source.read(&mut bytes[filled..])?;
        if got == 0 {
            bytes.truncate(filled);
            return Ok(bytes);
        }
        filled += got;
    }
    Err(ReadAll::TooLong)
}

/// All bytes that the source has, to its end, of which there are at most `most`.
///
/// They are read into one row, which grows by half of what it holds. So its memory is at most one
/// and a half times the bytes, and 64 KiB, while it is read and after.
pub fn read_all<S: Source>(alloc: Global, source: &mut S, most: usize) -> Result<Bytes, ReadAll>
    // All that the source had came, and it is at its end.
    ensures bytes { IfOk result (λ bytes. Consumes (S.left source.old) (S.left source.new) bytes) }
    ensures end { OnOk result (IsAtEnd (S.left source.new)) }
    ensures whole { IfOk result (λ bytes. IfSome (S.left source.old) (λ known. bytes ≡ known)) }

    // More than `most` bytes were read exactly at `TooLong`.
    ensures most { IfOk result (λ bytes. length bytes ≤ most) }
    ensures over { IfErr result (λ cause.
        ConsumesMoreWhere most (cause ≡ ReadAll.TooLong) (S.left source.old) (S.left source.new)) }
    ensures too_long { IsErrOf result ReadAll.TooLong
        → IfSome (S.left source.old) (λ known. most < length known) }

    // A read that failed raised the count. With no rise, what the source had decides.
    ensures failed { IsErrOf result ReadAll.Failed → Rose (S.faults source.old) (S.faults source.new) }
    ensures short { Stayed (S.faults source.old) (S.faults source.new)
        → IfAtMost most (S.left source.old) (IsOkUnless result ReadAll.NoMemory) }
    ensures long { Stayed (S.faults source.old) (S.faults source.new)
        → IfMore most (S.left source.old)
        (IsErrOf result ReadAll.TooLong ⊎ IsErrOf result ReadAll.NoMemory) }
    ensures later { S.faults source.old ≤ S.faults source.new }
{
    let bytes = read_up_to(alloc, source, most)?;
    Ok(Bytes::from_vec(bytes))
}

#[cfg(test)]
mod tests {
    use super::*;
    use crate::memory_sink::MemSink;
    use crate::memory_source::MemSource;
    use std::test::Fail;

    fn source(alloc: Global, count: usize, failing: Vec<u32>) -> Result<MemSource, Fail> {
        let bytes = vec![in alloc; b'a'; count]?;
        Ok(MemSource::new(Bytes::from_vec(bytes), failing))
    }

    #[test]
    fn a_source_of_several_pieces_is_read_whole(rt: HostRuntime) -> Result<(), Fail> {
        for count in [0, 1, 65_535, 65_536, 65_537, 200_000] {
            let mut source = source(rt.alloc(), count, Vec::new(rt.alloc()))?;
            let bytes = read_all(rt.alloc(), &mut source, count)?;
            assert_eq!(rt; bytes.get().len(), count);
        }
        Ok(())
    }

    #[test]
    fn one_byte_too_many_is_too_long(rt: HostRuntime) -> Result<(), Fail> {
        for most in [0, 1, 65_535, 65_536, 200_000] {
            let mut source = source(rt.alloc(), most + 1, Vec::new(rt.alloc()))?;
            let answer = read_all(rt.alloc(), &mut source, most);
            assert!(rt; matches!(answer, Err(ReadAll::TooLong)), "of {most}");
        }
        Ok(())
    }

    #[test]
    fn a_fault_between_pieces_is_no_end(rt: HostRuntime) -> Result<(), Fail> {
        let mut source = source(rt.alloc(), 70_000, vec![in rt.alloc(); 1]?)?;
        let answer = read_all(rt.alloc(), &mut source, usize::MAX);
        assert!(rt; matches!(answer, Err(ReadAll::Failed)));
        Ok(())
    }

    #[test]
    fn a_full_sink_has_the_front(rt: HostRuntime) -> Result<(), Fail> {
        let mut sink = MemSink::new(rt.alloc(), 3)?;
        assert_eq!(rt; write_whole(&mut sink, b"abcde"), Err(Failed));
        assert_eq!(rt; sink.written(), b"abc".as_slice());
        Ok(())
    }
}
