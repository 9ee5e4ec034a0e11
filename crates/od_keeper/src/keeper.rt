//! What keeps rows.
ghost use Rattle.std.specs.Prelude.{◌≡◌, ◌⊎◌, ℕ, ◌-◌, ◌^◌, ◌<◌, ◌≤◌, IfOk, OnOk, IsErrOf};
ghost use Rattle.od_io.specs.Streams.Count.{Rose};
ghost use Rattle.od_row.specs.declared.rows.Rows.{Rows as TheRows};
ghost use Rattle.od_row.specs.More.{with_doc, with_session, with_round};
ghost use Rattle.od_keeper.specs.Kept.{FindsOnly};
ghost use Rattle.od_keeper.specs.declared.keeper.KeepFault.TheVariants.{Failed, NoMemory};

use od_row::rows::{DocRow, RoundRow, Rows, SessionRow};
use od_text::text::NoMemory as MemoryRefused;
use std::alloc::{AllocError, Global};

/// Why a keeper did not do what it was asked.
#[derive(Clone, Copy, Debug, PartialEq, Eq)]
pub enum KeepFault {
    /// It failed.
    Failed,
    /// Memory was refused.
    NoMemory,
}

impl From<MemoryRefused> for KeepFault {
    ghost from_gives = { λ _ fault. fault ≡ NoMemory };

    fn from(_refused: MemoryRefused) -> KeepFault {
        KeepFault::NoMemory
    }
}

impl From<AllocError> for KeepFault {
    ghost from_gives = { λ _ fault. fault ≡ NoMemory };

    fn from(_refused: AllocError) -> KeepFault {
        KeepFault::NoMemory
    }
}

/// What keeps rows. It may be stopped at any call, and opened again.
pub trait Keeper {
    /// It tells that it keeps these rows.
    ghost tells: { Self → TheRows → Type 0 };

    /// These rows may be found where it is opened again.
    ghost may_find: { Self → TheRows → Type 0 };

    /// What it stands on gives back what was written, so far. A call may end this, and none
    /// restores it.
    ghost is_honest: { Self → Type 0 };

    /// How many calls failed. The count stays at 2^64 - 1.
    ghost faults: { Self → ℕ };

    /// The rows. It changes none, and adds none that may be found.
    fn load(&mut self, alloc: Global) -> Result<Rows, KeepFault>
        ensures honest { is_honest self.new → is_honest self.old }
        ensures later { faults self.old ≤ faults self.new }
        ensures last { faults self.new ≤ 2 ^ 64 - 1 }
        ensures failed { IsErrOf result Failed → Rose (faults self.old) (faults self.new) }
        ensures rows { is_honest self.new → (rows : TheRows) → tells self.old rows
            → IfOk result (λ told. told ≡ rows) }
        ensures same { is_honest self.new → (rows : TheRows) → tells self.old rows
            → OnOk result (tells self.new rows) }
        ensures memory { IsErrOf result NoMemory → is_honest self.new → (rows : TheRows)
            → tells self.old rows → tells self.new rows }
        ensures found { is_honest self.new → (rows other : TheRows) → tells self.old rows
            → may_find self.new other → may_find self.old other };

    /// Keeps one document row more.
    fn put_doc(&mut self, alloc: Global, row: &DocRow) -> Result<(), KeepFault>
        ensures honest { is_honest self.new → is_honest self.old }
        ensures later { faults self.old ≤ faults self.new }
        ensures last { faults self.new ≤ 2 ^ 64 - 1 }
        ensures failed { IsErrOf result Failed → Rose (faults self.old) (faults self.new) }
        ensures rows { is_honest self.new → (rows : TheRows) → tells self.old rows
            → OnOk result (tells self.new (with_doc rows row.now)) }
        ensures only { is_honest self.new → (rows : TheRows) → tells self.old rows
            → OnOk result (FindsOnly (may_find self.new) (with_doc rows row.now)) }
        ensures either { IsErrOf result Failed → is_honest self.new → (rows other : TheRows)
            → tells self.old rows → FindsOnly (may_find self.old) rows → may_find self.new other
            → (other ≡ rows) ⊎ (other ≡ with_doc rows row.now) }
        ensures memory { IsErrOf result NoMemory → is_honest self.new → (rows : TheRows)
            → tells self.old rows → tells self.new rows }
        ensures found { IsErrOf result NoMemory → is_honest self.new → (rows other : TheRows)
            → tells self.old rows → may_find self.new other → may_find self.old other };

    /// Keeps one session row more.
    fn put_session(&mut self, alloc: Global, row: &SessionRow) -> Result<(), KeepFault>
        ensures honest { is_honest self.new → is_honest self.old }
        ensures later { faults self.old ≤ faults self.new }
        ensures last { faults self.new ≤ 2 ^ 64 - 1 }
        ensures failed { IsErrOf result Failed → Rose (faults self.old) (faults self.new) }
        ensures rows { is_honest self.new → (rows : TheRows) → tells self.old rows
            → OnOk result (tells self.new (with_session rows row.now)) }
        ensures only { is_honest self.new → (rows : TheRows) → tells self.old rows
            → OnOk result (FindsOnly (may_find self.new) (with_session rows row.now)) }
        ensures either { IsErrOf result Failed → is_honest self.new → (rows other : TheRows)
            → tells self.old rows → FindsOnly (may_find self.old) rows → may_find self.new other
            → (other ≡ rows) ⊎ (other ≡ with_session rows row.now) }
        ensures memory { IsErrOf result NoMemory → is_honest self.new → (rows : TheRows)
            → tells self.old rows → tells self.new rows }
        ensures found { IsErrOf result NoMemory → is_honest self.new → (rows other : TheRows)
            → tells self.old rows → may_find self.new other → may_find self.old other };

    /// Keeps one round row more.
    fn put_round(&mut self, alloc: Global, row: &RoundRow) -> Result<(), KeepFault>
        ensures honest { is_honest self.new → is_honest self.old }
        ensures later { faults self.old ≤ faults self.new }
        ensures last { faults self.new ≤ 2 ^ 64 - 1 }
        ensures failed { IsErrOf result Failed → Rose (faults self.old) (faults self.new) }
        ensures rows { is_honest self.new → (rows : TheRows) → tells self.old rows
            → OnOk result (tells self.new (with_round rows row.now)) }
        ensures only { is_honest self.new → (rows : TheRows) → tells self.old rows
            → OnOk result (FindsOnly (may_find self.new) (with_round rows row.now)) }
        ensures either { IsErrOf result Failed → is_honest self.new → (rows other : TheRows)
            → tells self.old rows → FindsOnly (may_find self.old) rows → may_find self.new other
            → (other ≡ rows) ⊎ (other ≡ with_round rows row.now) }
        ensures memory { IsErrOf result NoMemory → is_honest self.new → (rows : TheRows)
            → tells self.old rows → tells self.new rows }
        ensures found { IsErrOf result NoMemory → is_honest self.new → (rows other : TheRows)
            → tells self.old rows → may_find self.new other → may_find self.old other };

    /// Rows that are told may be found.
    ghost passes: { (k : Self) (rows : TheRows) → tells k rows → may_find k rows };

    /// It tells of one list of rows at most.
    ghost told_once: { (k : Self) (rows other : TheRows) → tells k rows → tells k other
        → rows ≡ other };
}
