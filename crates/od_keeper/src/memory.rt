//! A keeper in memory, whose faults are chosen.
ghost use Rattle.std.specs.Prelude.{◌≡◌, [], ◌∷◌, ◌++◌, ◌-◌, ◌^◌, ◌<◌, ◌≤◌, OnOk, IsErrOf, option_map, None, Some, Bool, if◌then◌else◌};
ghost use Rattle.od_io.specs.Streams.Count.{Rose, count_up};
ghost use Rattle.od_row.specs.More.{with_doc, with_session, with_round};
ghost use Rattle.od_keeper.specs.Memory.{listed, is_failed};
ghost use Rattle.od_keeper.specs.declared.keeper.KeepFault.TheVariants.{Failed, NoMemory};

use super::count::FaultCount;
use super::keeper::{KeepFault, Keeper};
use od_row::rows::{DocRow, RoundRow, Rows, SessionRow};
use od_text::text::Copied;
use std::alloc::Global;
use std::marker::Model;

/// A call of a keeper.
#[derive(Clone, Copy, Debug, PartialEq, Eq)]
pub enum KeeperCall {
    Load,
    PutDoc,
    PutSession,
    PutRound,
}

/// A keeper of rows in memory, of which chosen puts fail.
#[derive(Drop)]
pub struct MemKeeper {
    rows: Rows,
    // How many puts were made, at most 2^64 - 1, which is the number of the next one.
    puts: u64,
    // The numbers of the puts that fail, each with whether its row is kept.
    failing: Vec<(u32, bool)>,
    calls: Vec<KeeperCall>,
    faults: FaultCount,
}

impl Model for MemKeeper {
    ghost use Rattle.od_keeper.specs.Memory.{MemoryState};

    ghost Value = { MemoryState };

    ghost view = { λ k. record {
      rows = k.rows;
      puts = k.puts;
      failing = k.failing.items;
      calls = k.calls.items;
      faults = k.faults.count;
    } };
}

/// How the put of this number fails, where it does.
fn listed(failing: &[(u32, bool)], put: u64) -> Option<bool>
    ensures { result ≡ option_map (λ f. f.1) (listed failing.now put) }
{
    failing.iter().find(|f| f.0 as u64 == put).map(|f| f.1)
}

impl MemKeeper {
    /// A keeper of these rows. Those of its puts fail that `failing` lists, numbered from 0, each
    /// with whether its row is kept.
    pub fn new(alloc: Global, rows: Rows, failing: Vec<(u32, bool)>) -> MemKeeper
        ensures { result ≡ record {
          rows = rows;
          puts = 0;
          failing = failing.items;
          calls = [];
          faults = 0;
        } }
    {
        MemKeeper {
            rows,
            puts: 0,
            failing,
            calls: Vec::new(alloc),
            faults: FaultCount::new(),
        }
    }

    /// The rows.
    pub fn rows(&self) -> &Rows
        ensures { result.now ≡ self.now.rows }
    {
        &self.rows
    }

    /// Its calls, in their order.
    pub fn calls(&self) -> &[KeeperCall]
        ensures { result.now ≡ self.now.calls }
    {
        self.calls.as_slice()
    }
}

impl MemKeeper {
    /// Keeps one document row more, or fails where its put is listed.
    fn keep_doc(&mut self, alloc: Global, row: &DocRow) -> Result<(), KeepFault>
        ensures ok { OnOk result ((listed self.old.failing self.old.puts ≡ None)
            × (self.new.rows ≡ with_doc self.old.rows row.now)) }
        ensures failed { IsErrOf result Failed → (kept : Bool)
            × (option_map (λ f. f.1) (listed self.old.failing self.old.puts) ≡ Some kept)
            × (self.new.rows
            ≡ (if kept then with_doc self.old.rows row.now else self.old.rows)) }
        ensures memory { IsErrOf result NoMemory → self.new ≡ self.old }
        ensures puts { (IsErrOf result NoMemory → ⊥) → self.new.puts ≡ count_up self.old.puts }
        ensures calls { (IsErrOf result NoMemory → ⊥)
            → self.new.calls ≡ self.old.calls ++ KeeperCall.PutDoc ∷ [] }
        ensures failing { self.new.failing ≡ self.old.failing }
        ensures faults { self.new.faults
            ≡ (if is_failed result then count_up self.old.faults else self.old.faults) }
        ensures later { self.old.faults ≤ self.new.faults }
        ensures rose { IsErrOf result Failed → Rose self.old.faults self.new.faults }
        ensures last { self.new.faults ≤ 2 ^ 64 - 1 }
    {
        self.calls.reserve(1)?;
        let twin = row.copy(alloc)?;
        let fails = listed(&self.failing, self.puts);
        if fails != Some(false) {
            self.rows.docs.push(twin)?;
        }
        self.puts = self.puts.saturating_add(1);
        self.calls.push_reserved(KeeperCall::PutDoc);
        match fails {
            None => Ok(()),
            Some(_) => Err(self.faults.failed()),
        }
    }

    /// Keeps one session row more, or fails where its put is listed.
    fn keep_session(&mut self, alloc: Global, row: &SessionRow) -> Result<(), KeepFault>
        ensures ok { OnOk result ((listed self.old.failing self.old.puts ≡ None)
            × (self.new.rows ≡ with_session self.old.rows row.now)) }
        ensures failed { IsErrOf result Failed → (kept : Bool)
            × (option_map (λ f. f.1) (listed self.old.failing self.old.puts) ≡ Some kept)
            × (self.new.rows
            ≡ (if kept then with_session self.old.rows row.now else self.old.rows)) }
        ensures memory { IsErrOf result NoMemory → self.new ≡ self.old }
        ensures puts { (IsErrOf result NoMemory → ⊥) → self.new.puts ≡ count_up self.old.puts }
        ensures calls { (IsErrOf result NoMemory → ⊥)
            → self.new.calls ≡ self.old.calls ++ KeeperCall.PutSession ∷ [] }
        ensures failing { self.new.failing ≡ self.old.failing }
        ensures faults { self.new.faults
            ≡ (if is_failed result then count_up self.old.faults else self.old.faults) }
        ensures later { self.old.faults ≤ self.new.faults }
        ensures rose { IsErrOf result Failed → Rose self.old.faults self.new.faults }
        ensures last { self.new.faults ≤ 2 ^ 64 - 1 }
    {
        self.calls.reserve(1)?;
        let twin = row.copy(alloc)?;
        let fails = listed(&self.failing, self.puts);
        if fails != Some(false) {
            self.rows.sessions.push(twin)?;
        }
        self.puts = self.puts.saturating_add(1);
        self.calls.push_reserved(KeeperCall::PutSession);
        match fails {
            None => Ok(()),
            Some(_) => Err(self.faults.failed()),
        }
    }

    /// Keeps one round row more, or fails where its put is listed.
    fn keep_round(&mut self, alloc: Global, row: &RoundRow) -> Result<(), KeepFault>
        ensures ok { OnOk result ((listed self.old.failing self.old.puts ≡ None)
            × (self.new.rows ≡ with_round self.old.rows row.now)) }
        ensures failed { IsErrOf result Failed → (kept : Bool)
            × (option_map (λ f. f.1) (listed self.old.failing self.old.puts) ≡ Some kept)
            × (self.new.rows
            ≡ (if kept then with_round self.old.rows row.now else self.old.rows)) }
        ensures memory { IsErrOf result NoMemory → self.new ≡ self.old }
        ensures puts { (IsErrOf result NoMemory → ⊥) → self.new.puts ≡ count_up self.old.puts }
        ensures calls { (IsErrOf result NoMemory → ⊥)
            → self.new.calls ≡ self.old.calls ++ KeeperCall.PutRound ∷ [] }
        ensures failing { self.new.failing ≡ self.old.failing }
        ensures faults { self.new.faults
            ≡ (if is_failed result then count_up self.old.faults else self.old.faults) }
        ensures later { self.old.faults ≤ self.new.faults }
        ensures rose { IsErrOf result Failed → Rose self.old.faults self.new.faults }
        ensures last { self.new.faults ≤ 2 ^ 64 - 1 }
    {
        self.calls.reserve(1)?;
        let twin = row.copy(alloc)?;
        let fails = listed(&self.failing, self.puts);
        if fails != Some(false) {
            self.rows.rounds.push(twin)?;
        }
        self.puts = self.puts.saturating_add(1);
        self.calls.push_reserved(KeeperCall::PutRound);
        match fails {
            None => Ok(()),
            Some(_) => Err(self.faults.failed()),
        }
    }
}

impl Keeper for MemKeeper {
    ghost use Rattle.od_keeper.specs.Told.{one_list};

    ghost tells = { λ k rows. k.rows ≡ rows };

    ghost may_find = { λ k rows. k.rows ≡ rows };

    ghost is_honest = { λ k. Unit {0} };

    ghost faults = { λ k. k.faults };

    ghost passes = { λ k rows told. told };

    ghost told_once = { λ k rows other told also. one_list k.rows rows other told also };

    fn load(&mut self, alloc: Global) -> Result<Rows, KeepFault> {
        self.calls.reserve(1)?;
        let rows = self.rows.copy(alloc)?;
        self.calls.push_reserved(KeeperCall::Load);
        Ok(rows)
    }

    fn put_doc(&mut self, alloc: Global, row: &DocRow) -> Result<(), KeepFault> {
        self.keep_doc(alloc, row)
    }

    fn put_session(&mut self, alloc: Global, row: &SessionRow) -> Result<(), KeepFault> {
        self.keep_session(alloc, row)
    }

    fn put_round(&mut self, alloc: Global, row: &RoundRow) -> Result<(), KeepFault> {
        self.keep_round(alloc, row)
    }
}
