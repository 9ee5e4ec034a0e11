//! Lines of bytes, and blocks of lines.
ghost use Rattle.std.specs.Prelude.{◌≡◌, ◌==◌};
ghost use Rattle.std.specs.List.{position};
ghost use Rattle.od_order.specs.Lines.{whole_lines, line_text, says_nothing};
ghost use Rattle.od_script.specs.Blocks.{IsFirstLine, IsBlock};

/// The place of the first line feed.
fn line_feed(bytes: &[u8]) -> Option<usize>
    ensures { result ≡ position (λ b. b == 10) bytes.now }
{
    bytes.iter().position(|b| *b == b'\n')
}

/// The first line with the line feed that ends it, and the bytes behind it; none where no byte is left.
pub(crate) fn first_line(bytes: &[u8]) -> Option<(&[u8], &[u8])>
    ensures { IsFirstLine bytes.now result }
{
    if bytes.is_empty() {
        return None;
    }
    match line_feed(bytes) {
        Some(at) => Some(bytes.split_at(at + 1)),
        None => Some((bytes, &[])),
    }
}

/// What a line says: it without its line feed and one carriage return before that.
pub(crate) fn line_text(line: &str) -> &str
    ensures { result.now ≡ line_text line.now }
{
    let Some(ended) = line.strip_suffix('\n') else {
        return line;
    };
    match ended.strip_suffix('\r') {
        Some(text) => text,
        None => ended,
    }
}

/// Whether a line says nothing: it is empty or begins with `#`.
pub(crate) fn says_nothing(text: &str) -> bool
    ensures { result ≡ says_nothing text.now }
{
    text.is_empty() || text.as_bytes().starts_with(b"#")
}

/// The first lines with their ends, and the bytes behind them, where there are so many lines.
pub(crate) fn block(bytes: &[u8], count: u32) -> Option<(&[u8], &[u8])>
    ensures { IsBlock bytes.now count result }
{
    let mut rest = bytes;
    for _line in 0..count {
        let Some((_, more)) = first_line(rest) else {
            return None;
        };
        rest = more;
    }
    Some(bytes.split_at(bytes.len() - rest.len()))
}
