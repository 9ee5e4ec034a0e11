//! A maker of which chosen calls are refused.
ghost use Rattle.std.specs.Prelude.{◌≡◌, ◌⊎◌, ◌↔◌, ℕ, [], ◌∷◌, ◌++◌, Contains, IfOk, OnOk, IsErr, IsErrOf};
ghost use Rattle.std.specs.List.Sorted.{IsNonDecreasing};
ghost use Rattle.od_io.specs.Streams.Count.{count_up};

use super::makers::{MakeFault, PatternMaker};
use super::memory_source::is_listed;
use od_text::text::Text;
use std::alloc::Global;
use std::marker::Model;

/// A maker over another one, which refuses chosen calls besides.
#[derive(Drop)]
pub struct FailMaker<M> {
    inner: M,
    // How many calls were made, at most 2^64 - 1, which is the number of the next one.
    calls: u64,
    // The numbers of the calls that are refused, in ascending order.
    failing: Vec<u32>,
    refused: Vec<Text>,
}

impl<M> Model for FailMaker<M> {
    ghost use Rattle.std.specs.List.Sorted.{IsNonDecreasing};
    ghost use Rattle.od_io.specs.Failing.{FailingMaker, failing_maker_code};

    ghost Value = { FailingMaker M };

    ghost coded = { failing_maker_code M.code };

    ghost view = { λ m. record { inner = m.inner; calls = m.calls; failing = m.failing.items; refused = m.refused.items } };

    ghost invariant = { λ m. IsNonDecreasing m.failing.items };
}

impl<M> FailMaker<M> {
    /// A maker over `inner`. Those of its calls are refused that `failing` lists, in any order,
    /// numbered from 0, and those that `inner` refuses.
    pub fn new(alloc: Global, inner: M, mut failing: Vec<u32>) -> FailMaker<M>
        ensures inner { result.inner ≡ inner }
        ensures failing { (call : ℕ) → Contains result.failing call ↔ Contains failing.items call }
        ensures calls { result.calls ≡ 0 }
        ensures refused { result.refused ≡ [] }
    {
        failing.sort_unstable();
        FailMaker {
            inner,
            calls: 0,
            failing,
            refused: Vec::new(alloc),
        }
    }
}

impl<M: PatternMaker> PatternMaker for FailMaker<M> {
    type Runner = M::Runner;

    ghost refused = { λ m. m.refused };

    fn make(&mut self, alloc: Global, pattern: &str) -> Result<M::Runner, MakeFault>
        // What every maker does.
        ensures made { IfOk result (λ runner. M.Runner.pattern runner ≡ pattern.now) }
        ensures ok { OnOk result (self.new.refused ≡ self.old.refused) }
        ensures refuses { IsErrOf result MakeFault.Refused
            → self.new.refused ≡ self.old.refused ++ pattern.now ∷ [] }
        ensures memory { IsErrOf result MakeFault.NoMemory → self.new.refused ≡ self.old.refused }

        // A listed call is refused, and does not reach the inner maker.
        ensures listed { Contains self.old.failing self.old.calls → IsErr result }
        ensures unreached { Contains self.old.failing self.old.calls
            → self.new.inner ≡ self.old.inner }

        // Another one is refused where the inner maker refuses it, and only there.
        ensures cause { IsErrOf result MakeFault.Refused
            → Contains self.old.failing self.old.calls
            ⊎ (M.refused self.new.inner ≡ M.refused self.old.inner ++ pattern.now ∷ []) }
        ensures passed { OnOk result (M.refused self.new.inner ≡ M.refused self.old.inner) }
        ensures spared { IsErrOf result MakeFault.NoMemory
            → M.refused self.new.inner ≡ M.refused self.old.inner }
        ensures calls { self.new.calls ≡ count_up self.old.calls }
        ensures failing { self.new.failing ≡ self.old.failing }
    {
        let is_failing = is_listed(&self.failing, self.calls);
        self.calls = self.calls.saturating_add(1);
        // The memory for a refusal comes first, so what the inner maker refuses is noted.
        let Ok(text) = Text::from_str(alloc, pattern) else {
            return Err(MakeFault::NoMemory);
        };
        if self.refused.reserve(1).is_err() {
            return Err(MakeFault::NoMemory);
        }
        if is_failing {
            self.refused.push(text).unwrap();
            return Err(MakeFault::Refused);
        }
        match self.inner.make(alloc, pattern) {
            Ok(runner) => Ok(runner),
            Err(MakeFault::NoMemory) => Err(MakeFault::NoMemory),
            Err(MakeFault::Refused) => {
                self.refused.push(text).unwrap();
                Err(MakeFault::Refused)
            }
        }
    }
}

#[cfg(test)]
mod tests {
    use super::*;
    use crate::regex_maker::RegexMaker;
    use std::test::Fail;

    /// Whether a call made a runner, or why not.
    fn outcome(
        maker: &mut FailMaker<RegexMaker>,
        alloc: Global,
        pattern: &str,
    ) -> Result<(), MakeFault> {
        match maker.make(alloc, pattern) {
            Ok(_) => Ok(()),
            Err(fault) => Err(fault),
        }
    }

    #[test]
    fn listed_calls_are_refused_and_those_that_the_inner_maker_refuses(
        rt: HostRuntime,
    ) -> Result<(), Fail> {
        let alloc = rt.alloc();
        let failing = vec![in alloc; 3, 0]?;
        let mut maker = FailMaker::new(alloc, RegexMaker::new(alloc), failing);
        assert_eq!(rt; outcome(&mut maker, alloc, "a"), Err(MakeFault::Refused));
        assert_eq!(rt; outcome(&mut maker, alloc, "a"), Ok(()));
        assert_eq!(rt; outcome(&mut maker, alloc, "("), Err(MakeFault::Refused));
        assert_eq!(rt; outcome(&mut maker, alloc, "("), Err(MakeFault::Refused));
        assert_eq!(rt; outcome(&mut maker, alloc, "a"), Ok(()));
        Ok(())
    }
}
