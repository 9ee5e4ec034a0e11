//! Writing a list of mentions.
ghost use Rattle.std.specs.Prelude.{◌≡◌, ◌<◌, ◌++◌, IfOk, IfSome, IsUtf8, OnOk, Ok, flat_map, length};
ghost use Rattle.od_text.specs.Lists.{Each};
ghost use Rattle.od_stored.specs.declared.limits.TheConstants.{NUMBER_END};
ghost use Rattle.od_stored.specs.Mentions.{IsList, IsMention, IsPart, IsWritable, IsWritablePart};
ghost use Rattle.od_stored.specs.Mentions.{label_bytes, list_bytes, mention_bytes, part_bytes};
ghost use Rattle.od_stored.specs.ReadMentions.{list_read};
ghost use Rattle.od_stored.specs.Texts.{IsText, text_bytes};

use od_extraction::mention::{Mention, Part};
use od_stored::number::put_number;
use od_text::text::{Bytes, NoMemory, Text};
use std::alloc::Global;

/// The first byte of a list tells how the rest is written; it is 1 so far.
pub const VERSION: u8 = 1;

/// Writes a text behind what is there: its length in bytes, then the text.
fn put_text(out: &mut Vec<u8>, text: &Text) -> Result<(), NoMemory>
    requires { length text.now < NUMBER_END }
    ensures ok { OnOk result (out.new.items ≡ out.old.items ++ text_bytes text.now) }
    ensures is { IsText text.now }
{
    let bytes = text.get().as_bytes();
    put_number(out, bytes.len() as u32)?;
    out.extend_from_slice(bytes)?;
    Ok(())
}

/// Writes a label, or that there is none.
fn put_label(out: &mut Vec<u8>, label: &Option<Text>) -> Result<(), NoMemory>
    requires { IfSome label.now (λ text. length text < NUMBER_END) }
    ensures ok { OnOk result (out.new.items ≡ out.old.items ++ label_bytes label.now) }
    ensures is { OnOk result (IfSome label.now IsText) }
{
    match label {
        None => out.push(0)?,
        Some(text) => {
            out.push(1)?;
            put_text(out, text)?;
        }
    }
    Ok(())
}

/// Writes a part.
#[tactic(auto, unfolding(od_stored::specs::Mentions::part_bytes))]
fn put_part(out: &mut Vec<u8>, part: &Part) -> Result<(), NoMemory>
    requires { IsWritablePart part.now }
    ensures ok { OnOk result (out.new.items ≡ out.old.items ++ part_bytes part.now) }
    ensures is { OnOk result (IsPart part.now) }
{
    put_text(out, &part.name)?;
    put_label(out, &part.label)?;
    put_number(out, part.start)?;
    put_number(out, part.end)?;
    Ok(())
}

/// Writes parts one after another.
fn put_parts(out: &mut Vec<u8>, parts: &[Part]) -> Result<(), NoMemory>
    requires { Each IsWritablePart parts.now }
    ensures ok { OnOk result (out.new.items ≡ out.old.items ++ flat_map part_bytes parts.now) }
    ensures are { OnOk result (Each IsPart parts.now) }
{
    for part in parts {
        put_part(out, part)?;
    }
    Ok(())
}

/// Writes a mention.
#[tactic(auto, unfolding(od_stored::specs::Mentions::mention_bytes))]
fn put_mention(out: &mut Vec<u8>, mention: &Mention) -> Result<(), NoMemory>
    requires { IsWritable mention.now }
    ensures ok { OnOk result (out.new.items ≡ out.old.items ++ mention_bytes mention.now) }
    ensures is { OnOk result (IsMention mention.now) }
{
    put_number(out, mention.document)?;
    put_number(out, mention.sentence)?;
    put_number(out, mention.start)?;
    put_number(out, mention.end)?;
    put_text(out, &mention.label)?;
    put_text(out, &mention.rule)?;
    put_number(out, mention.parts.len() as u32)?;
    put_parts(out, mention.parts.get())?;
    Ok(())
}

/// Writes mentions one after another.
fn put_mentions(out: &mut Vec<u8>, mentions: &[Mention]) -> Result<(), NoMemory>
    requires { Each IsWritable mentions.now }
    ensures ok { OnOk result (out.new.items ≡ out.old.items ++ flat_map mention_bytes mentions.now) }
    ensures are { OnOk result (Each IsMention mentions.now) }
{
    for mention in mentions {
        put_mention(out, mention)?;
    }
    Ok(())
}

/// The bytes of a list of mentions, from which `decode` gives the same list.
///
/// Each mention takes a token at least, and no part ends before it starts.
/// There are fewer than 2^32 mentions, parts of each and bytes of each text.
#[tactic(auto, unfolding(od_stored::specs::Mentions::list_bytes))]
pub fn encode(alloc: Global, mentions: &[Mention]) -> Result<Bytes, NoMemory>
    requires count { length mentions.now < NUMBER_END }
    requires each { Each IsWritable mentions.now }
    ensures bytes { IfOk result (λ bytes. bytes ≡ list_bytes mentions.now) }
    ensures back { IfOk result (λ bytes. list_read bytes ≡ Ok mentions.now) }
{
    let mut out = Vec::new(alloc);
    out.push(VERSION)?;
    put_number(&mut out, mentions.len() as u32)?;
    put_mentions(&mut out, mentions)?;
    Ok(Bytes::from_vec(out))
}
