//! The lines below the line of a key.
ghost use Rattle.std.specs.Prelude.{[]};
ghost use Rattle.od_yaml.specs.Below.{IsBelow};

/// How many lines below that of a key belong to it, and the text behind these.
#[derive(Clone, Copy, Debug)]
pub(crate) struct Below<'a> {
    pub lines: u32,
    pub rest: &'a str,
}

/// No line belongs to it.
pub(crate) fn nothing_below(more: &str) -> Below<'_>
    ensures { IsBelow [] more.now result }
{
    Below {
        lines: 0,
        rest: more,
    }
}
