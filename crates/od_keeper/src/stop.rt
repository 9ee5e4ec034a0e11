//! A keeper that stops at a put.
ghost use Rattle.std.specs.Prelude.{◌≡◌, ◌⊎◌, ◌-◌, ◌<◌, ◌≤◌, true, false, if◌then◌else◌, IsErrOf};
ghost use Rattle.od_io.specs.Streams.Count.{Rose, count_up};
ghost use Rattle.od_row.specs.declared.rows.Rows.{Rows as TheRows};
ghost use Rattle.od_row.specs.More.{with_doc, with_session, with_round};
ghost use Rattle.od_keeper.specs.Kept.{FindsOnly};
ghost use Rattle.od_keeper.specs.Memory.{is_failed};
ghost use Rattle.od_keeper.specs.declared.keeper.KeepFault.TheVariants.{Failed};

use super::count::FaultCount;
use super::keeper::{KeepFault, Keeper};
use od_row::rows::{DocRow, RoundRow, Rows, SessionRow};
use std::alloc::Global;

/// A keeper over another one, which stops at a put: that put and all later calls fail.
#[derive(Drop)]
pub struct Stop<K> {
    inner: K,
    // How many puts are still passed on.
    left: u32,
    // Whether the row of the put that fails is kept.
    kept: bool,
    stopped: bool,
    faults: FaultCount,
}

/// What becomes of a put.
#[derive(Clone, Copy, Debug, PartialEq, Eq)]
enum Passing {
    /// It is passed on.
    On,
    /// It fails, and is the one at which the keeper stops.
    Last,
    /// It fails, since the keeper has stopped.
    Refused,
}

/// What a call of the inner keeper answered; where it failed, that is counted.
fn counted<T>(faults: &mut FaultCount, answer: Result<T, KeepFault>) -> Result<T, KeepFault>
    ensures same { result ≡ answer }
    ensures count { faults.new.count
        ≡ (if is_failed answer then count_up faults.old.count else faults.old.count) }
{
    if matches!(answer, Err(KeepFault::Failed)) {
        let _ = faults.failed();
    }
    answer
}

impl<K: Keeper> Stop<K> {
    /// A keeper that passes so many puts on, and fails the next, whose row is kept or not.
    pub fn new(inner: K, passed: u32, kept: bool) -> Stop<K>
        ensures inner { result.inner ≡ inner }
        ensures runs { result.stopped ≡ false }
        ensures left { result.left ≡ passed }
    {
        Stop {
            inner,
            left: passed,
            kept,
            stopped: false,
            faults: FaultCount::new(),
        }
    }

    /// The keeper, opened again.
    pub fn reopened(self) -> K
        ensures { result ≡ self.inner }
    {
        self.inner
    }

    /// Counts one put, and says what becomes of it.
    fn next_put(&mut self) -> Passing
        ensures refused { self.old.stopped ≡ true
            → (result ≡ Passing.Refused) × (self.new ≡ self.old) }
        ensures last { self.old.stopped ≡ false → self.old.left ≡ 0
            → (result ≡ Passing.Last) × (self.new ≡ record self.old { stopped = true }) }
        ensures on { self.old.stopped ≡ false → 0 < self.old.left
            → (result ≡ Passing.On) × (self.new ≡ record self.old { left = self.old.left - 1 }) }
    {
        if self.stopped {
            return Passing::Refused;
        }
        if self.left == 0 {
            self.stopped = true;
            return Passing::Last;
        }
        self.left -= 1;
        Passing::On
    }
}

impl<K: Keeper> Keeper for Stop<K> {
    ghost tells = { λ k rows. (k.stopped ≡ false) × K.tells k.inner rows };

    ghost may_find = { λ k rows. K.may_find k.inner rows };

    ghost is_honest = { λ k. K.is_honest k.inner };

    ghost faults = { λ k. k.faults.count };

    ghost passes = { λ k rows told. K.passes k.inner rows told.1 };

    ghost told_once = { λ k rows other told also. K.told_once k.inner rows other told.1 also.1 };

    fn load(&mut self, alloc: Global) -> Result<Rows, KeepFault> {
        if self.stopped {
            return Err(self.faults.failed());
        }
        let rows = self.inner.load(alloc);
        counted(&mut self.faults, rows)
    }

    fn put_doc(&mut self, alloc: Global, row: &DocRow) -> Result<(), KeepFault> {
        match self.next_put() {
            Passing::Refused => Err(self.faults.failed()),
            Passing::Last => {
                last_doc(alloc, &mut self.inner, self.kept, row);
                Err(self.faults.failed())
            }
            Passing::On => {
                let answer = self.inner.put_doc(alloc, row);
                counted(&mut self.faults, answer)
            }
        }
    }

    fn put_session(&mut self, alloc: Global, row: &SessionRow) -> Result<(), KeepFault> {
        match self.next_put() {
            Passing::Refused => Err(self.faults.failed()),
            Passing::Last => {
                last_session(alloc, &mut self.inner, self.kept, row);
                Err(self.faults.failed())
            }
            Passing::On => {
                let answer = self.inner.put_session(alloc, row);
                counted(&mut self.faults, answer)
            }
        }
    }

    fn put_round(&mut self, alloc: Global, row: &RoundRow) -> Result<(), KeepFault> {
        match self.next_put() {
            Passing::Refused => Err(self.faults.failed()),
            Passing::Last => {
                last_round(alloc, &mut self.inner, self.kept, row);
                Err(self.faults.failed())
            }
            Passing::On => {
                let answer = self.inner.put_round(alloc, row);
                counted(&mut self.faults, answer)
            }
        }
    }
}

/// Keeps the row of the put that fails, or not.
fn last_doc<K: Keeper>(alloc: Global, inner: &mut K, kept: bool, row: &DocRow)
    ensures honest { K.is_honest inner.new → K.is_honest inner.old }
    ensures either { K.is_honest inner.new → (rows other : TheRows) → K.tells inner.old rows
        → FindsOnly (K.may_find inner.old) rows → K.may_find inner.new other
        → (other ≡ rows) ⊎ (other ≡ with_doc rows row.now) }
{
    if kept {
        match inner.put_doc(alloc, row) {
            Ok(()) => {}
            Err(KeepFault::Failed) => {}
            Err(KeepFault::NoMemory) => {}
        }
    }
}

/// Keeps the row of the put that fails, or not.
fn last_session<K: Keeper>(alloc: Global, inner: &mut K, kept: bool, row: &SessionRow)
    ensures honest { K.is_honest inner.new → K.is_honest inner.old }
    ensures either { K.is_honest inner.new → (rows other : TheRows) → K.tells inner.old rows
        → FindsOnly (K.may_find inner.old) rows → K.may_find inner.new other
        → (other ≡ rows) ⊎ (other ≡ with_session rows row.now) }
{
    if kept {
        match inner.put_session(alloc, row) {
            Ok(()) => {}
            Err(KeepFault::Failed) => {}
            Err(KeepFault::NoMemory) => {}
        }
    }
}

/// Keeps the row of the put that fails, or not.
fn last_round<K: Keeper>(alloc: Global, inner: &mut K, kept: bool, row: &RoundRow)
    ensures honest { K.is_honest inner.new → K.is_honest inner.old }
    ensures either { K.is_honest inner.new → (rows other : TheRows) → K.tells inner.old rows
        → FindsOnly (K.may_find inner.old) rows → K.may_find inner.new other
        → (other ≡ rows) ⊎ (other ≡ with_round rows row.now) }
{
    if kept {
        match inner.put_round(alloc, row) {
            Ok(()) => {}
            Err(KeepFault::Failed) => {}
            Err(KeepFault::NoMemory) => {}
        }
    }
}
