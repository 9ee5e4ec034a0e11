//! The names of a pattern's captures.
ghost use Rattle.std.specs.Prelude.{◌≡◌, ℕ, List as Seq, ◌++◌, MatchResult};
ghost use Rattle.od_surface.specs.Again.{Knows};
ghost use Rattle.od_syntax.specs.Events.{captures};
ghost use Rattle.od_event_text.specs.Names.{captures_in, Adds};

use od_language::pattern_fault::PatternFault;
use od_pattern::pattern::Surface;
use od_surface::again::seen_before;
use std::alloc::Global;
use std::collections::HashSet;

/// Adds the names of a pattern's captures to those that were seen.
///
/// It is called once for each part that stands in another one, which brackets bound.
#[cycle(add)]
pub fn add_captures(
    alloc: Global,
    names: &mut HashSet<String>,
    pattern: &Surface,
) -> Result<(), PatternFault>
    ensures { MatchResult result (λ _. Adds names.old names.new (captures pattern.now))
        (λ e. e ≡ PatternFault.NoMemory) }
{
    match pattern {
        Surface::Token(_) | Surface::Look { .. } => Ok(()),
        Surface::Label(_) | Surface::First | Surface::Last => Ok(()),
        Surface::Seq(parts) => add_all(alloc, names, parts.get()),
        Surface::Alt(parts) => add_all(alloc, names, parts.get()),
        Surface::Repeat(body, _) => add_captures(alloc, names, body.get()),
        Surface::Capture(name, body) => {
            seen_before(alloc, names, name)?;
            add_captures(alloc, names, body.get())
        }
    }
}

/// The same of several patterns.
#[cycle(add)]
fn add_all(
    alloc: Global,
    names: &mut HashSet<String>,
    parts: &[Surface],
) -> Result<(), PatternFault>
    ensures { MatchResult result (λ _. Adds names.old names.new (captures_in parts.now))
        (λ e. e ≡ PatternFault.NoMemory) }
{
    for part in parts {
        add_captures(alloc, names, part)?;
    }
    Ok(())
}
