//! Identifiers.
ghost use Rattle.std.specs.Prelude.{◌≡◌};
ghost use Rattle.std.specs.List.{list_all};
ghost use Rattle.od_language.specs.Identifier.{begins_identifier, in_identifier, is_identifier};

use od_language::limits::IDENTIFIER_BYTES;

/// Whether an identifier may begin with this byte.
fn begins_identifier(c: u8) -> bool
    ensures { result ≡ begins_identifier c }
{
    c.is_ascii_alphabetic() || c == b'_'
}

/// Whether this byte may stand in an identifier.
fn in_identifier(c: u8) -> bool
    ensures { result ≡ in_identifier c }
{
    c.is_ascii_alphanumeric() || c == b'_'
}

/// Whether each byte may stand in an identifier.
fn all_in_identifier(text: &[u8]) -> bool
    ensures { result ≡ list_all in_identifier text.now }
{
    text.iter().all(|c| in_identifier(*c))
}

/// Whether these bytes are an identifier.
pub(crate) fn is_identifier(text: &[u8]) -> bool
    ensures { result ≡ is_identifier text.now }
{
    match text {
        [] => false,
        [first, more @ ..] => {
            begins_identifier(*first) && more.len() < IDENTIFIER_BYTES && all_in_identifier(more)
        }
    }
}
