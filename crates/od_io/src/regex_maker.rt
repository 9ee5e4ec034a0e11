//! Regular expressions of the crate `regex`. An expression `p` is compiled as `\A(?:p)\z`, so it
//! holds of whole texts.
ghost use Rattle.std.specs.Prelude.{◌≡◌, ◌∷◌, ◌++◌, [], map, IfOk, OnOk, OnErr};
ghost use Rattle.regex.specs.Strings.{regex_pattern, matcher_pattern};
ghost use Rattle.od_asked.specs.Texts.{regex_holds};
ghost use Rattle.od_io.specs.Compiled.{IsCompiledFrom};

use super::makers::{MakeFault, PatternMaker, Runner};
use od_text::text::{NoMemory, Text};
use regex::{Error, Matcher, Regex};
use std::alloc::Global;

/// A compiled expression, with its text as it was before the assertions came round it.
#[derive(Drop)]
pub struct RegexRunner {
    regex: Regex,
    pattern: Text,
    ghost reads: { IsCompiledFrom regex pattern },
}

/// Whether the expression holds of a text.
fn run_one(matcher: &mut Matcher<'_>, runner: &RegexRunner, text: &str) -> bool
    requires { matcher_pattern matcher.old ≡ regex_pattern runner.now.regex }
    ensures truth { result ≡ regex_holds runner.now.pattern text.now }
    ensures same { matcher_pattern matcher.new ≡ regex_pattern runner.now.regex }
{
    matcher.is_match(text)
}

/// Whether the expression holds of each text. One matcher serves them all.
fn run_all(alloc: Global, runner: &RegexRunner, texts: &[Text]) -> Result<Vec<bool>, NoMemory>
    ensures { IfOk result (λ truths.
        truths.items ≡ map (regex_holds runner.now.pattern) texts.now) }
{
    let mut matcher = runner.regex.matcher(alloc)?;
    let mut truths = Vec::with_capacity(alloc, texts.len())?;
    for text in texts {
        let truth = run_one(&mut matcher, runner, text.get());
        truths.push(truth)?;
    }
    Ok(truths)
}

impl Runner for RegexRunner {
    ghost pattern = { λ r. r.pattern };

    fn all(&mut self, alloc: Global, texts: &[Text]) -> Result<Vec<bool>, NoMemory> {
        run_all(alloc, self, texts)
    }
}

/// An expression between the assertions that it matches a whole text.
fn compile(alloc: Global, pattern: &str) -> Result<Regex, MakeFault>
    ensures { IfOk result (λ regex. IsCompiledFrom regex pattern.now) }
{
    let Ok(source) = format!(in alloc; "\\A(?:{pattern})\\z") else {
        return Err(MakeFault::NoMemory);
    };
    match Regex::new(alloc, source.as_str()) {
        Ok(regex) => Ok(regex),
        Err(Error::OutOfMemory) => Err(MakeFault::NoMemory),
        Err(_) => Err(MakeFault::Refused),
    }
}

/// Makes expressions of the crate `regex`, and refuses those that it does not read or that are too
/// large for it.
#[derive(Drop)]
pub struct RegexMaker {
    refused: Vec<Text>,
}

impl RegexMaker {
    /// A maker that refused nothing yet.
    pub fn new(alloc: Global) -> RegexMaker
        ensures { ⟦<RegexMaker as PatternMaker>⟧.refused result ≡ [] }
    {
        RegexMaker {
            refused: Vec::new(alloc),
        }
    }
}

impl PatternMaker for RegexMaker {
    type Runner = RegexRunner;

    ghost refused = { λ m. m.refused.items };

    fn make(&mut self, alloc: Global, pattern: &str) -> Result<RegexRunner, MakeFault> {
        let Ok(text) = Text::from_str(alloc, pattern) else {
            return Err(MakeFault::NoMemory);
        };
        match compile(alloc, pattern) {
            Ok(regex) => Ok(RegexRunner {
                regex,
                pattern: text,
            }),
            Err(MakeFault::NoMemory) => Err(MakeFault::NoMemory),
            Err(MakeFault::Refused) => match self.refused.push(text) {
                Ok(()) => Err(MakeFault::Refused),
                Err(_) => Err(MakeFault::NoMemory),
            },
        }
    }
}

#[cfg(test)]
mod tests {
    use super::*;
    use std::test::Fail;

    /// The texts of which the expression holds, with a space behind each.
    fn held(alloc: Global, expression: &str, texts: &[Text]) -> Result<String, Fail> {
        let mut maker = RegexMaker::new(alloc);
        let mut held = String::new(alloc);
        match maker.make(alloc, expression) {
            Ok(mut runner) => {
                let truths = runner.all(alloc, texts)?;
                for (text, truth) in texts.iter().zip(truths.iter()) {
                    if *truth {
                        held.push_str(text.get())?;
                        held.push_str(" ")?;
                    }
                }
            }
            Err(MakeFault::Refused) => held.push_str("refused")?,
            Err(MakeFault::NoMemory) => held.push_str("no memory")?,
        }
        Ok(held)
    }

    #[test]
    fn an_expression_holds_of_whole_texts(rt: HostRuntime) -> Result<(), Fail> {
        let alloc = rt.alloc();
        let mut texts = Vec::new(alloc);
        for word in [
            "zebra", "zebu", "a zebra", "ZEBU", "ab", "ax", "xb", "a", "", "é",
        ] {
            texts.push(Text::from_str(alloc, word)?)?;
        }
        let rows = [
            ("zeb.*", "zebra zebu "),
            ("zebu", "zebu "),
            ("a|ab", "ab a "),
            ("(?i)zebu", "zebu ZEBU "),
            (".", "a é "),
            ("", " "),
            ("a)|(b", "a zebra ab ax xb a "),
            ("(", "refused"),
            ("a{2,1}", "refused"),
        ];
        for (expression, expected) in rows {
            let found = held(alloc, expression, &texts)?;
            assert_eq!(rt; found.as_str(), expected, "by {expression}");
        }
        Ok(())
    }
}
