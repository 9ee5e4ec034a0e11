//! The words of a line, names and numbers.
ghost use Rattle.std.specs.Prelude.{◌≡◌, ◌≤◌, List as Seq, ℕ, length};
ghost use Rattle.std.specs.List.{list_all};
ghost use Rattle.std.specs.Option.{option_map};
ghost use Rattle.od_text.specs.Cuts.{split_once, both, CutsAt};
ghost use Rattle.od_order.specs.Names.{is_name_byte, is_name, digits_from, script_number};
ghost use Rattle.od_order.specs.Statements.{words_of, first_word, keyword_of};
ghost use Rattle.od_order.specs.declared.script.TheConstants.{NUMBER_DIGITS};
ghost use Rattle.od_script.specs.Said.{AreWords};

use od_order::keyword::Keyword;
use od_order::script::{NAME_BYTES, NUMBER_DIGITS};

/// The words of a line, between which one space stands each.
#[derive(Clone, Copy, Debug)]
pub(crate) enum Words<'a> {
    One(&'a str),
    Two(&'a str, &'a str),
    Three(&'a str, &'a str, &'a str),
    Four(&'a str, &'a str, &'a str, &'a str),
    /// The first of five or more.
    More(&'a str),
}

/// The text before the first space and that behind it, where there is one.
pub(crate) fn cut_space(text: &str) -> Option<(&str, &str)>
    ensures once { split_once 32 text.now ≡ option_map both result }
    ensures parts { CutsAt 32 text.now result }
{
    text.split_once(' ')
}

/// The words of a line.
pub(crate) fn words_of(text: &str) -> Words<'_>
    ensures { AreWords (words_of text.now) result }
{
    let Some((first, rest)) = cut_space(text) else {
        return Words::One(text);
    };
    let Some((second, rest)) = cut_space(rest) else {
        return Words::Two(first, rest);
    };
    let Some((third, rest)) = cut_space(rest) else {
        return Words::Three(first, second, rest);
    };
    match cut_space(rest) {
        None => Words::Four(first, second, third, rest),
        Some(_) => Words::More(first),
    }
}

/// The first of the words.
fn first_word<'a>(words: Words<'a>) -> &'a str
    ensures { (all : Seq (Seq ℕ)) → AreWords all words.entry → result.now ≡ first_word all }
{
    match words {
        Words::One(first) => first,
        Words::Two(first, _) => first,
        Words::Three(first, _, _) => first,
        Words::Four(first, _, _, _) => first,
        Words::More(first) => first,
    }
}

/// The keyword that a word is.
fn keyword_of(word: &str) -> Option<Keyword>
    ensures { result ≡ keyword_of word.now }
{
    match word {
        "grammar" => Some(Keyword::Grammar),
        "query" => Some(Keyword::Query),
        "client" => Some(Keyword::Client),
        "doc" => Some(Keyword::Doc),
        "open" => Some(Keyword::Open),
        "step" => Some(Keyword::Step),
        "run" => Some(Keyword::Run),
        "resume" => Some(Keyword::Resume),
        "print" => Some(Keyword::Print),
        "release" => Some(Keyword::Release),
        "settle" => Some(Keyword::Settle),
        _ => None,
    }
}

/// The keyword that the first of the words is.
pub(crate) fn keyword_in(words: Words<'_>) -> Option<Keyword>
    ensures { (all : Seq (Seq ℕ)) → AreWords all words.entry → result ≡ keyword_of (first_word all) }
{
    keyword_of(first_word(words))
}

/// Whether it is an ASCII letter, a digit, `_`, `.` or `-`.
fn is_name_byte(byte: u8) -> bool
    ensures { result ≡ is_name_byte byte }
{
    byte.is_ascii_alphabetic()
        || byte.is_ascii_digit()
        || byte == b'_'
        || byte == b'.'
        || byte == b'-'
}

/// Whether each byte may stand in a name.
fn are_name_bytes(text: &[u8]) -> bool
    ensures { result ≡ list_all is_name_byte text.now }
{
    text.iter().all(|b| is_name_byte(*b))
}

/// Whether it is a name: 1 to 64 letters, digits, `_`, `.` or `-`.
pub(crate) fn is_name(text: &str) -> bool
    ensures { result ≡ is_name text.now }
{
    1 <= text.len() && text.len() <= NAME_BYTES && are_name_bytes(text.as_bytes())
}

/// The number of these digits.
fn digits(text: &[u8]) -> Option<u32>
    requires { length text.now ≤ NUMBER_DIGITS }
    ensures { result ≡ digits_from 0 text.now }
{
    let mut number = 0u32;
    for byte in text {
        if !byte.is_ascii_digit() {
            return None;
        }
        number = number * 10 + u32::from(*byte - b'0');
    }
    Some(number)
}

/// The number, where the text is one: `0`, or up to 9 digits without a leading zero.
pub(crate) fn number(text: &str) -> Option<u32>
    ensures { result ≡ script_number text.now }
{
    let text = text.as_bytes();
    if text.len() == 0 || NUMBER_DIGITS < text.len() {
        return None;
    }
    if text[0] == b'0' && 1 < text.len() {
        return None;
    }
    digits(text)
}
