//! What makes regular expressions that can be run, and what runs them over texts.
ghost use Rattle.std.specs.Prelude.{◌≡◌, ℕ, List, [], ◌∷◌, ◌++◌, map, IfOk, OnOk, IsErrOf};
ghost use Rattle.od_asked.specs.Texts.{regex_holds};

use od_text::text::{NoMemory, Text};
use std::alloc::Global;

/// Why no runner was made.
#[derive(Clone, Copy, Debug, PartialEq, Eq)]
pub enum MakeFault {
    /// The maker refuses the expression.
    Refused,
    /// Memory was refused.
    NoMemory,
}

/// A regular expression that can be run over texts.
pub trait Runner {
    /// The text of the expression.
    ghost pattern: { Self → List ℕ };

    /// Whether the expression holds of each text, in the order of the texts.
    fn all(&mut self, alloc: Global, texts: &[Text]) -> Result<Vec<bool>, NoMemory>
        ensures truths { IfOk result (λ truths.
            truths.items ≡ map (regex_holds (pattern self.old)) texts.now) }
        ensures same { pattern self.new ≡ pattern self.old };
}

/// Makes runners of the texts of regular expressions. How many it refused is its count of faults.
pub trait PatternMaker {
    type Runner: Runner + Send;

    /// The texts that it refused, in their order.
    ghost refused: { Self → List (List ℕ) };

    /// A runner of an expression.
    fn make(&mut self, alloc: Global, pattern: &str) -> Result<Self::Runner, MakeFault>
        ensures made { IfOk result (λ runner. Self.Runner.pattern runner ≡ pattern.now) }
        ensures ok { OnOk result (refused self.new ≡ refused self.old) }
        ensures refuses { IsErrOf result MakeFault.Refused
            → refused self.new ≡ refused self.old ++ pattern.now ∷ [] }
        ensures memory { IsErrOf result MakeFault.NoMemory → refused self.new ≡ refused self.old };
}
