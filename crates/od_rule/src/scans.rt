//! The matches of the surface patterns of a rule.
ghost use Rattle.std.specs.Prelude.{◌≡◌, ◌≤◌, ℕ, List as Seq, length, map, IfOk};
ghost use Rattle.std.specs.List.{AllZip};
ghost use Rattle.od_text.specs.Lists.{Each};
ghost use Rattle.od_asked.specs.Asked.{asked_surface};
ghost use Rattle.od_asked.specs.Tables.{RowsFit};
ghost use Rattle.od_machine.specs.Spans.{IsSpanIndex};
ghost use Rattle.od_matching.specs.Matching.Scan.{scan_of};
ghost use Rattle.od_pattern.specs.declared.pattern.Surface.{Surface as Pattern};
ghost use Rattle.od_rule.specs.Codes.{IsPlaced};
ghost use Rattle.od_rule.specs.Finding.{FitEach, scans_of};

use crate::code::Placed;
use od_asked::columns::Columns;
use od_extraction::mention::{Labelled, Match};
use od_machine::scan::Scanner;
use od_machine::spans::SpanIndex;
use od_postings::IdSentence;
use od_text::list::List;
use od_text::text::NoMemory;
use std::alloc::Global;

/// The matches of one surface pattern in a sentence.
pub(crate) fn scan_one(
    alloc: Global,
    scanner: &mut Scanner,
    placed: &Placed,
    words: &IdSentence,
    columns: &Columns,
    local: &[Labelled],
    index: &SpanIndex,
) -> Result<List<Match>, NoMemory>
    requires rows { placed.now.first ≤ length columns.now.rows }
    requires index { IsSpanIndex local.now index.now }
    ensures { IfOk result (λ found. (s : ℕ × Pattern) → IsPlaced placed.now s
        → RowsFit columns.now.rows words.now.sentence s.0 (asked_surface s.1)
        → found ≡ scan_of s.1 words.now.sentence local.now) }
{
    let found = scanner.scan(
        alloc,
        &placed.program,
        words.len(),
        columns,
        placed.first,
        local,
        index,
    )?;
    Ok(List::from_vec(found))
}

/// The matches of each of the surface patterns in a sentence.
pub(crate) fn scan_each(
    alloc: Global,
    scanner: &mut Scanner,
    programs: &[Placed],
    words: &IdSentence,
    columns: &Columns,
    local: &[Labelled],
    index: &SpanIndex,
) -> Result<List<List<Match>>, NoMemory>
    requires rows { Each (λ placed. placed.first ≤ length columns.now.rows) programs.now }
    requires index { IsSpanIndex local.now index.now }
    ensures { IfOk result (λ scans. (surfaces : Seq (ℕ × Pattern))
        → AllZip IsPlaced programs.now surfaces
        → FitEach columns.now.rows words.now.sentence surfaces
        → scans ≡ scans_of words.now.sentence local.now surfaces) }
{
    let mut scans = List::new(alloc);
    for placed in programs {
        let found = scan_one(alloc, scanner, placed, words, columns, local, index)?;
        scans.push(found)?;
    }
    Ok(scans)
}
