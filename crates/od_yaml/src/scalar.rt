//! Scalars of any form.
ghost use Rattle.std.specs.Prelude.{◌≡◌, ◌^◌, ◌<◌, length, IfOk};
ghost use Rattle.od_yaml.specs.Scalars.{IsScalar, IsOnLine};

use crate::below::nothing_below;
use crate::literal::{Scalar, literal, literal_mark};
use crate::part::{begins_with, text_from};
use crate::plain::plain;
use crate::quoted::quoted;
use od_text::text::{NoMemory, Text};
use std::alloc::Global;

/// A scalar that ends on the line of its key.
fn on_line(text: Option<Text>, more: &str) -> Option<Scalar<'_>>
    ensures { IsOnLine text more.now result }
{
    match text {
        None => None,
        Some(text) => Some(Scalar {
            text,
            below: nothing_below(more),
        }),
    }
}

/// The scalar behind a key at this column: `rest` is the rest of its line, `more` the text below it.
/// None where no scalar stands there.
pub(crate) fn scalar<'a>(
    alloc: Global,
    column: usize,
    rest: &str,
    more: &'a str,
) -> Result<Option<Scalar<'a>>, NoMemory>
    requires { length more.now < 2 ^ 32 }
    ensures { IfOk result (IsScalar column rest.now more.now) }
{
    if begins_with(rest.as_bytes(), b'"') {
        return Ok(on_line(quoted(alloc, text_from(rest, 1))?, more));
    }
    if let Some(chomping) = literal_mark(rest) {
        return Ok(Some(literal(alloc, column, chomping, more)?));
    }
    match plain(rest) {
        None => Ok(None),
        Some(text) => Ok(on_line(Some(Text::from_str(alloc, text)?), more)),
    }
}
