//! Where a path leads.
ghost use Rattle.std.specs.Prelude.{◌≡◌, length, vec_len, IfOk};
ghost use Rattle.od_asked.specs.Asked.{asked_path};
ghost use Rattle.od_asked.specs.Tables.{columns_of, RowsFit};
ghost use Rattle.od_matching.specs.Matching.Reach.{nodes};
ghost use Rattle.od_reach.specs.Reached.{AreReached};

use crate::compile::compile;
use crate::links::links_of;
use crate::walk::walk_from;
use od_asked::columns::Columns;
use od_pattern::path::Path;
use od_postings::IdSentence;
use od_text::text::NoMemory;
use std::alloc::Global;

/// The tokens to which a path leads from one of the tokens marked in `from`: a mark for each token
/// of the sentence. The rows of what the path asks are those of the table from `first` on.
///
/// # Errors
///
/// `NoMemory` where memory is refused.
pub fn reach_at(
    alloc: Global,
    path: &Path,
    sentence: &IdSentence,
    columns: &Columns,
    first: usize,
    from: &[bool],
) -> Result<Vec<bool>, NoMemory>
    requires marks { length from.now ≡ nodes sentence.now.sentence }
    requires columns { RowsFit columns.now.rows sentence.now.sentence first (asked_path path.now) }
    ensures long { IfOk result (λ marks. vec_len marks ≡ nodes sentence.now.sentence) }
    ensures reached { IfOk result (λ marks.
        AreReached sentence.now.sentence path.now from.now marks.items) }
{
    let code = compile(alloc, path, first)?;
    let links = links_of(alloc, sentence)?;
    let marks = walk_from(alloc, &code, sentence, &links, columns, from)?;
    Ok(marks)
}

/// The same, with a table of what the path asks alone.
///
/// # Errors
///
/// `NoMemory` where memory is refused.
pub fn reach(
    alloc: Global,
    path: &Path,
    sentence: &IdSentence,
    columns: &Columns,
    from: &[bool],
) -> Result<Vec<bool>, NoMemory>
    requires marks { length from.now ≡ nodes sentence.now.sentence }
    requires columns { columns.now.rows ≡ columns_of sentence.now.sentence (asked_path path.now) }
    ensures long { IfOk result (λ marks. vec_len marks ≡ nodes sentence.now.sentence) }
    ensures reached { IfOk result (λ marks.
        AreReached sentence.now.sentence path.now from.now marks.items) }
{
    let marks = reach_at(alloc, path, sentence, columns, 0, from)?;
    Ok(marks)
}
