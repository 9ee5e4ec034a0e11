// The columns of a line.
ghost use Rattle.std.specs.Prelude.{◌≡◌};
ghost use Rattle.std.specs.Option.{option_map};
ghost use Rattle.od_document.specs.Columns.{line_columns_of, columns_of, value_at_key, misc_value};
ghost use Rattle.od_text.specs.Cuts.{split_once};
ghost use Rattle.od_conllu.specs.Seen.{text_seen, columns_seen};

use crate::column::cut;

/// The columns of a line that are read.
#[derive(Clone, Copy, Debug)]
pub struct LineColumns<'a> {
    pub id: &'a str,
    pub form: &'a str,
    pub lemma: &'a str,
    pub upos: &'a str,
    pub xpos: &'a str,
    pub head: &'a str,
    pub deprel: &'a str,
    pub misc: &'a str,
}

/// The columns of a line, where it has exactly ten.
pub fn line_columns(line: &str) -> Option<LineColumns<'_>>
    ensures { line_columns_of (columns_of line.now) ≡ option_map columns_seen result }
{
    let (id, after_id) = cut(line, '\t')?;
    let (form, after_form) = cut(after_id, '\t')?;
    let (lemma, after_lemma) = cut(after_form, '\t')?;
    let (upos, after_upos) = cut(after_lemma, '\t')?;
    let (xpos, after_xpos) = cut(after_upos, '\t')?;
    let (_feats, after_feats) = cut(after_xpos, '\t')?;
    let (head, after_head) = cut(after_feats, '\t')?;
    let (deprel, after_deprel) = cut(after_head, '\t')?;
    let (_deps, misc) = cut(after_deprel, '\t')?;
    match cut(misc, '\t') {
        Some(_) => None,
        None => Some(LineColumns {
            id,
            form,
            lemma,
            upos,
            xpos,
            head,
            deprel,
            misc,
        }),
    }
}

/// The value of an item `KEY=VALUE` that has this key.
fn value_at_key<'a>(key: &str, item: &'a str) -> Option<&'a str>
    ensures { value_at_key key.now (split_once 61 item.now) ≡ option_map text_seen result }
{
    let (before, after) = cut(item, '=')?;
    if before == key { Some(after) } else { None }
}

/// The value of the first item of MISC, whose items stand between `|`, that has this key.
pub fn misc_item<'a>(key: &str, misc: &'a str) -> Option<&'a str>
    ensures { misc_value key.now misc.now ≡ option_map text_seen result }
{
    let mut rest = misc;
    loop {
        match cut(rest, '|') {
            None => return value_at_key(key, rest),
            Some((first, more)) => {
                if let Some(value) = value_at_key(key, first) {
                    return Some(value);
                }
                rest = more;
            }
        }
    }
}
