//! The lock and its calls.
//!
//! Threads share three words and a slot, where the value lies while nobody is in turn. A turn takes
//! six steps. The caller draws a ticket from the first word, and looks at the second until that
//! ticket is served: with that look the slot is the caller's. It takes the value out. At the end it
//! puts the value back, raises the third word, the count of marks, by the marks that it added, and
//! serves the next ticket: with that step the slot is open again. Two more steps come outside turns:
//! a pass is cut from the first seat, and the passes come together in one.
ghost use Rattle.std.specs.Prelude.{◌≡◌, ◌≤◌};

use crate::counted::Counted;
use crate::pass::Pass;
use crate::rule::{Opening, TurnRule};
use crate::steps::{Collect, Draw, Issue, Look, Raise, Serve};
use crate::turn::Turn;
use crate::view::SeatView;
use atomic_table::{Badge, Refused, Seat, Table};
use od_text::text::NoMemory;
use std::alloc::Global;
use std::snapshot::Snapshot;
use std::sync::Wait;
use std::{mem, thread};

/// The word that counts the tickets that were drawn. It wraps.
const TICKET: usize = 0;

/// The word with the ticket that is served. It wraps.
const SERVING: usize = 1;

/// The word with the number of the value's marks.
const COUNT: usize = 2;

/// A lock round a value, with a fixed number of passes.
///
/// The value lies in the table's one slot, but while a caller has it.
#[derive(Drop)]
pub struct Turnstile<V: Counted> {
    table: Table<Option<V>, SeatView, Opening<V>, TurnRule<V>, Global>,
    ghost three_words: { table.shared.table_id.words ≡ 3 },
    ghost one_slot: { table.shared.table_id.slots ≡ 1 },
    ghost some_callers: { 1 ≤ table.shared.key.callers },
}

impl<V: Counted> Turnstile<V> {
    ghost use Rattle.std.specs.Prelude.{◌<◌, All, length, [], ◌∷◌, IfOk, IfErr, vec_capacity};
    ghost use Rattle.od_turn.specs.declared.view.Stage.TheVariants.{Idle};
    ghost use Rattle.od_turn.specs.Passes.{pass_view, pass_views, seen_of, idle_seat, IsFree, AreFree};
    ghost use Rattle.od_turn.specs.Passes.{BeginsIn, AddsAtMostOne, AddedBy};
    ghost use Rattle.od_turn.specs.Locks.{lock_id, callers_of, first_value, start_origin, start_marks};
    ghost use Rattle.od_turn.specs.Locks.{first_seat, taken_marks, AreNewAt, IsPassAt, IsTurnAt, IsEnd};

    /// A lock round the value, and its passes, numbered from 1 in the order of the list. Each has
    /// seen the value's marks. `callers` is the number of passes. Where memory is refused, the value
    /// comes back.
    pub fn make(
        alloc: Global,
        value: V,
        callers: u32,
    ) -> Result<(Turnstile<V>, Vec<Pass>), (V, NoMemory)>
        requires some { 1 ≤ callers }
        ensures first { IfOk result (λ r. first_value r.0 ≡ value) }
        ensures callers { IfOk result (λ r. callers_of r.0 ≡ callers) }
        ensures all { IfOk result (λ r. length r.1.items ≡ callers) }
        ensures ready { IfOk result (λ r. All (IsPassAt V.origin r.0) r.1.items) }
        ensures new { IfOk result (λ r. AreNewAt V.marks V.origin r.0 r.1.items) }
        ensures refused { IfErr result (λ r. r.0 ≡ value) }
    {
        let known = value.count();
        let Ok(mut passes) = Vec::with_capacity(alloc, callers as usize) else {
            return Err((value, NoMemory));
        };
        let Ok(mut slots) = Vec::with_capacity(alloc, 1) else {
            return Err((value, NoMemory));
        };
        let about = Opening {
            callers: u64::from(callers),
            first: Snapshot::of(&value),
        };
        slots.push_reserved(Some(value));
        match Table::new(alloc, &[0, 0, known], slots, &about) {
            Ok((table, seat)) => {
                let turnstile = Turnstile { table };
                turnstile.issue(seat, &mut passes, callers, known);
                Ok((turnstile, passes))
            }
            Err(Refused { mut slots }) => {
                let Some(Some(value)) = slots.pop() else {
                    unreachable!()
                };
                slots.destroy_empty();
                Err((value, NoMemory))
            }
        }
    }

    // Cuts the passes from the first seat, in the order of their numbers.
    fn issue(
        &self,
        mut seat: Seat<Option<V>, SeatView>,
        passes: &mut Vec<Pass>,
        callers: u32,
        known: u64,
    )
        requires own { seat.table_id ≡ lock_id self.now }
        requires view { seat.me ≡ first_seat V.marks V.origin self.now callers }
        requires room { (passes.old.items ≡ []) × (callers ≤ vec_capacity passes.old) }
        requires some { 1 ≤ callers }
        requires known { known ≡ length (start_marks V.marks self.now) }
        ensures ready { All (IsPassAt V.origin self.now) passes.new.items }
        ensures new { AreNewAt V.marks V.origin self.now passes.new.items }
        ensures all { length passes.new.items ≡ callers }
    {
        for number in 1..callers {
            let other = self.table.shared.split_seat::<Issue>(&mut seat);
            passes.push_reserved(Pass::new(other.into_badge(), number, known));
        }
        passes.push_reserved(Pass::new(seat.into_badge(), callers, known));
    }

    /// Waits for the pass's turn, and takes the value. Its marks are those that the pass has seen,
    /// followed by marks of other callers.
    pub fn take<H: Wait>(&self, rt: &H, pass: &mut Pass) -> Turn<V>
        requires pass { IsPassAt V.origin self.now pass.old }
        ensures turn { IsTurnAt V.origin self.now pass.new result }
        ensures taken { taken_marks result ≡ V.marks result.value }
        ensures origin { V.origin result.value ≡ start_origin V.origin self.now }
        ensures seen { BeginsIn (V.marks result.value) pass.old }
        ensures pass { (pass.new.number ≡ pass.old.number) × (pass.new.known ≡ pass.old.known) }
    {
        let badge = mem::replace(&mut pass.badge, Badge::blank());
        let mut seat: Seat<Option<V>, SeatView> = badge.into_seat();
        let ticket = self.table.shared.fetch_add::<Draw>(&mut seat, TICKET, 1);
        for _ in rt.forever() {
            if self.table.shared.load::<Look<V>>(&mut seat, SERVING) == ticket {
                let Some(value) = self.table.shared.exchange(&mut seat, 0, None) else {
                    unreachable!()
                };
                let count = value.count();
                return Turn { seat, value, count };
            }
            thread::yield_now();
        }
        unreachable!()
    }

    /// Gives the value back at the end of a turn. The turn may have added one mark, which names the
    /// pass's number. The pass has then seen all marks.
    pub fn give(&self, pass: &mut Pass, turn: Turn<V>)
        requires turn { IsTurnAt V.origin self.now pass.old turn }
        requires origin { V.origin turn.value ≡ start_origin V.origin self.now }
        requires adds { AddsAtMostOne pass.old.number (taken_marks turn) (V.marks turn.value) }
        ensures pass { IsPassAt V.origin self.now pass.new }
        ensures seen { seen_of pass.new ≡ V.marks turn.value }
        ensures number { pass.new.number ≡ pass.old.number }
    {
        let Turn {
            mut seat,
            value,
            count,
        } = turn;
        let now = value.count();
        // The value goes back before the count is raised: that step reads the marks in the slot.
        let left = self.table.shared.exchange(&mut seat, 0, Some(value));
        let None = left else { unreachable!() };
        self.table
            .shared
            .fetch_add::<Raise<V>>(&mut seat, COUNT, now - count);
        self.table.shared.fetch_add::<Serve>(&mut seat, SERVING, 1);
        pass.badge = seat.into_badge();
        pass.known = now;
    }

    /// The number of marks that the pass has seen. It reads no word that threads share, so it does
    /// not change while others have their turns. In a turn of the pass it is the number before.
    pub fn known(&self, pass: &Pass) -> u64
        ensures number { result ≡ pass.now.known }
        ensures seen { IsPassAt V.origin self.now pass.now → result ≡ length (seen_of pass.now) }
    {
        pass.known
    }

    /// Hands the value back, once all passes are here again.
    pub fn close(self, passes: Vec<Pass>) -> V
        requires passes { All (IsPassAt V.origin self) passes.items }
        requires all { length passes.items ≡ callers_of self }
        ensures origin { V.origin result ≡ start_origin V.origin self }
        ensures seen { All (BeginsIn (V.marks result)) passes.items }
        ensures named { AddedBy passes.items (start_marks V.marks self) (V.marks result) }
    {
        let seat = self.collect(passes);
        self.finish(seat)
    }

    // The passes come together in one seat.
    fn collect(&self, mut passes: Vec<Pass>) -> Seat<Option<V>, SeatView>
        requires free { AreFree (lock_id self.now) passes.items }
        requires some { 0 < length passes.items }
        ensures own { result.table_id ≡ lock_id self.now }
        ensures view { result.me ≡ idle_seat (pass_views passes.items) }
    {
        let Some(last) = passes.pop() else {
            unreachable!()
        };
        let mut seat: Seat<Option<V>, SeatView> = last.badge.into_seat();
        while let Some(pass) = passes.pop() {
            self.join(&mut seat, pass);
        }
        passes.destroy_empty();
        seat
    }

    // The pass comes to the front of those of the seat.
    fn join(&self, seat: &mut Seat<Option<V>, SeatView>, pass: Pass)
        requires own { seat.old.table_id ≡ lock_id self.now }
        requires idle { (seat.old.me.0.stage ≡ Idle) × (seat.old.me.1 ≡ []) }
        requires free { (pass.badge.table_id ≡ lock_id self.now) × IsFree pass.badge.views }
        ensures own { seat.new.table_id ≡ lock_id self.now }
        ensures view { seat.new.me ≡ idle_seat (pass_view pass.badge.views ∷ seat.old.me.0.passes) }
    {
        self.table
            .shared
            .join_seat::<Collect>(seat, pass.badge.into_seat());
    }

    // Takes the value out of the table, of which this seat has all passes.
    fn finish(self, seat: Seat<Option<V>, SeatView>) -> V
        requires own { seat.table_id ≡ lock_id self }
        requires view { seat.me ≡ idle_seat seat.me.0.passes }
        requires all { length seat.me.0.passes ≡ callers_of self }
        ensures ends { IsEnd V.marks V.origin self seat.me.0.passes result }
    {
        let Turnstile { table } = self;
        let mut closed = table.close_with(seat);
        let Some(value) = closed.take(0) else {
            unreachable!()
        };
        closed.free();
        value
    }
}
