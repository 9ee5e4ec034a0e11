// The sentence whose lines are being read.
ghost use Rattle.std.specs.Prelude.{◌≡◌, ◌<◌, ◌++◌, [], ◌∷◌, Some, None, IfErr, IfOk, OnOk, length};
ghost use Rattle.od_document.specs.Lines.{Line};
ghost use Rattle.od_document.specs.Words.{word_lines_of, content_of};
ghost use Rattle.od_document.specs.Faults.{content_fault, fault_at, heads_fault};
ghost use Rattle.od_conllu.specs.Lines.{Ends, IfBad};

use crate::content::{Content, line_content};
use crate::fault::ReadDocFault;
use crate::sentence::{head_fault, sentence};
use crate::word_line::{WordLine, word_line};
use od_document::conllu::ConlluFault;
use od_document::sentence::Sentence;
use std::alloc::Global;
use std::marker::Model;

/// The word lines of a sentence so far, which contracts see as the list of them.
#[derive(Debug, Drop)]
pub struct Draft<'a> {
    words: Vec<WordLine<'a>>,
}

impl<'a> Model for Draft<'a> {
    ghost use Rattle.std.specs.Prelude.{◌≤◌, List, map, length};
    ghost use Rattle.od_document.specs.declared.limits.TheConstants.{SENTENCE_TOKENS};
    ghost use Rattle.od_document.specs.Words.{WordLine};
    ghost use Rattle.od_conllu.specs.Lines.{word_seen};

    ghost Value = { List WordLine };

    ghost view = { λ d. map word_seen d.words.items };

    ghost invariant = { λ d. length d.words.items ≤ SENTENCE_TOKENS };
}

impl<'a> Draft<'a> {
    /// No word line.
    pub fn new(alloc: Global) -> Draft<'a>
        ensures { result ≡ [] }
    {
        Draft {
            words: Vec::new(alloc),
        }
    }

    /// Takes a line that is not empty, whose number is given.
    pub fn line(&mut self, number: u32, text: &'a str) -> Result<(), ReadDocFault>
        requires { 0 < length text.now }
        ensures ok { OnOk result (content_fault (length self.old) (content_of text.now) ≡ None) }
        ensures words { let line : Line = record { number = number; text = text.now } in
            OnOk result (self.new ≡ self.old ++ word_lines_of (line ∷ [])) }
        ensures bad { let kind = content_fault (length self.old) (content_of text.now) in
            IfErr result (λ e. IfBad e (λ f. fault_at number kind ≡ Some f)) }
    {
        match line_content(text) {
            Content::NoWord => Ok(()),
            Content::Wrong(kind) => Err(ReadDocFault::Bad(ConlluFault { line: number, kind })),
            Content::Word(id, columns) => {
                let word = word_line(number, self.words.len() as u32, id, columns)?;
                self.words.push(word)?;
                Ok(())
            }
        }
    }

    /// Ends the sentence, where it has a word, with its heads tested; no word line is left.
    pub fn end(&mut self, alloc: Global) -> Result<Option<Sentence>, ReadDocFault>
        ensures ok { IfOk result (λ s. heads_fault (length self.old) self.old ≡ None) }
        ensures sentence { IfOk result (λ s. Ends self.old s) }
        ensures left { IfOk result (λ s. self.new ≡ []) }
        ensures bad { IfErr result (λ e. IfBad e (λ f.
            heads_fault (length self.old) self.old ≡ Some f)) }
    {
        if self.words.is_empty() {
            return Ok(None);
        }
        if let Some(fault) = head_fault(&self.words) {
            return Err(ReadDocFault::Bad(fault));
        }
        let sentence = sentence(alloc, &self.words)?;
        self.words.clear();
        Ok(Some(sentence))
    }
}
