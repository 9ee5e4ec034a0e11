//! Lists of mentions that earlier rounds added.
ghost use Rattle.std.specs.Prelude.{◌≡◌, ◌≤◌, ◌<◌, ◌^◌, length, slice_get, Some, IfOk};
ghost use Rattle.od_extraction.specs.Joined.{joined};
ghost use Rattle.od_extraction.specs.Mentions.{distinct};
ghost use Rattle.od_extraction.specs.Weight.{weight, most_weight};
ghost use Rattle.od_matching.specs.Rounds.Phases.{ends_empty};
ghost use Rattle.od_rounds.specs.Weighed.{most_kept};
ghost use Rattle.od_text.specs.Lists.{Each};

use crate::moving::copy_all;
use od_extraction::mention::Mention;
use od_mentions::State;
use od_text::list::List;
use od_text::text::NoMemory;
use std::alloc::Global;

/// The mentions of lists, each once, in the order in which they stand first.
pub(crate) fn known_of(alloc: Global, lists: &[List<Mention>]) -> Result<State, NoMemory>
    requires few { length lists.now < 2 ^ 32 }
    requires light { Each (λ list. weight list ≤ most_weight) lists.now }
    ensures known { IfOk result (λ known. known ≡ distinct (joined lists.now)) }
    ensures light { IfOk result (λ known. weight known ≤ most_kept) }
{
    let mut known = State::new(alloc);
    for place in 0..lists.len() {
        copy_all(alloc, &mut known, list_at(lists, place))?;
    }
    Ok(known)
}

/// The list at a place.
fn list_at(lists: &[List<Mention>], place: usize) -> &[Mention]
    requires { place < length lists.now }
    ensures { slice_get lists.now place ≡ Some result.now }
{
    lists[place].get()
}

/// Whether the last of some lists is empty; not where there is none.
pub(crate) fn ends_quiet(lists: &[List<Mention>]) -> bool
    ensures { result ≡ ends_empty lists.now }
{
    match lists {
        [] => false,
        [.., last] => last.len() == 0,
    }
}
