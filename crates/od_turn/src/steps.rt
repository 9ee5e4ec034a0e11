//! The kinds of step that change what a seat knows, and what each tells it. The two exchanges, which
//! take the value out of the slot and put it back, change nothing of that.
use crate::counted::Counted;
use crate::view::SeatView;
use atomic_table::{Join, Play, Split};
use std::marker::PhantomData;

/// The seat draws a ticket.
pub(crate) struct Draw;

impl<S> Play<S, SeatView> for Draw {
    ghost use Rattle.od_turn.specs.Steps.{draws};

    ghost then = { draws };
}

/// The seat looks which ticket is served. Where it is its own, the seat is in turn and has the slot.
pub(crate) struct Look<V> {
    of: PhantomData<V>,
}

impl<V: Counted> Play<Option<V>, SeatView> for Look<V> {
    ghost use Rattle.od_turn.specs.Steps.{looks};

    ghost then = { looks V.marks V.origin };
}

/// The seat in turn brings the count to that of the value in its slot.
pub(crate) struct Raise<V> {
    of: PhantomData<V>,
}

impl<V: Counted> Play<Option<V>, SeatView> for Raise<V> {
    ghost use Rattle.od_turn.specs.Steps.{raises};

    ghost then = { raises V.marks };
}

/// The seat in turn gives the slot back, and the next ticket is served.
pub(crate) struct Serve;

impl<S> Play<S, SeatView> for Serve {
    ghost use Rattle.od_turn.specs.Steps.{serves};

    ghost then = { serves };
}

/// The first pass of a seat goes to a new seat.
pub(crate) struct Issue;

impl Split<SeatView> for Issue {
    ghost use Rattle.od_turn.specs.Steps.{kept_back, issued};

    ghost left = { kept_back };

    ghost right = { issued };
}

/// The passes of two seats come together in the first.
pub(crate) struct Collect;

impl Join<SeatView> for Collect {
    ghost use Rattle.od_turn.specs.Steps.{collected, spent_view};

    ghost both = { collected };

    ghost spent = { spent_view };
}
