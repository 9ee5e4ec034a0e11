//! Turns one after another, and beside one another.
ghost use Rattle.std.specs.Prelude.{◌≤◌, All};
ghost use Rattle.od_turn.specs.Passes.{blank_origin, IsPassOf, AddsAtMostOne};
ghost use Rattle.od_turn.specs.Locks.{lock_id};

use crate::counted::Counted;
use crate::pass::Pass;
use crate::turn::Turn;
use crate::turnstile::Turnstile;
use od_command::history::{Command, Entry, Reply};
use od_mark::mark::Mark;
use std::alloc::{AllocError, Global};
use std::sync::Wait;
use std::thread;
use std::thread::Threads;

// Marks and nothing else.
#[derive(Drop)]
struct Tally {
    marks: Vec<Mark>,
}

impl Counted for Tally {
    ghost marks = { λ t. t.marks.items };

    ghost origin = { λ _. blank_origin };

    fn count(&self) -> u64 {
        self.marks.len() as u64
    }
}

impl Tally {
    // Adds a mark of the caller, whose entry has this number. Where memory is refused, adds nothing.
    fn note(&mut self, caller: u32, call: u32)
        ensures { AddsAtMostOne caller self.old.marks.items self.new.marks.items }
    {
        if self.marks.reserve(1).is_err() {
            return;
        }
        let entry = Entry {
            caller,
            call,
            command: Command::Settle,
            reply: Reply::Released,
        };
        self.marks.push_reserved(Mark {
            caller,
            entry: Some(entry),
            merge: None,
            stop: None,
            lost: None,
        });
    }

    // How many marks the caller left; 0 where their entries are not numbered from 1 in order.
    fn numbered(&self, caller: u32) -> u32 {
        let mut number: u32 = 0;
        for mark in &self.marks {
            if mark.caller == caller {
                number = number.wrapping_add(1);
                match &mark.entry {
                    Some(entry) if entry.caller == caller && entry.call == number => {}
                    _ => return 0,
                }
            }
        }
        number
    }
}

// As many turns, each of which adds a mark with an entry of its own number.
fn turns<H: Wait>(rt: &H, lock: &Turnstile<Tally>, pass: &mut Pass, count: u32)
    requires { IsPassOf (lock_id lock.now) blank_origin pass.old }
    ensures { IsPassOf (lock_id lock.now) blank_origin pass.new }
{
    for call in 0..count {
        one_turn(rt, lock, pass, call.wrapping_add(1));
    }
}

// A turn that adds a mark with an entry of this number.
fn one_turn<H: Wait>(rt: &H, lock: &Turnstile<Tally>, pass: &mut Pass, call: u32)
    requires { IsPassOf (lock_id lock.now) blank_origin pass.old }
    ensures { IsPassOf (lock_id lock.now) blank_origin pass.new }
{
    let mut turn = lock.take(rt, pass);
    turn.value_mut().note(pass.number(), call);
    lock.give(pass, turn);
}

// The turns of each pass in a thread of its own.
fn beside<R: Threads + Wait + Sync>(
    rt: &R,
    lock: &Turnstile<Tally>,
    passes: &mut [Pass],
    count: u32,
)
    requires { All (IsPassOf (lock_id lock.now) blank_origin) passes.old }
    ensures { All (IsPassOf (lock_id lock.now) blank_origin) passes.new }
{
    let threads = passes.len();
    if threads == 0 {
        return;
    }
    thread::for_each_mut(
        rt,
        passes,
        threads,
        &|_, pass: &mut Pass|
            requires { IsPassOf (lock_id lock.now) blank_origin pass.now }
            ensures { IsPassOf (lock_id lock.entry.now) blank_origin pass.exit.now }
        { turns(rt, lock, pass, count) },
    );
}

// So many threads with as many turns each, beside one another.
fn run<R: Threads + Wait + Sync>(
    rt: &R,
    alloc: Global,
    callers: u32,
    count: u32,
) -> Result<Tally, AllocError>
    requires { 1 ≤ callers }
{
    let marks = Vec::new(alloc);
    let Ok((lock, mut passes)) = Turnstile::make(alloc, Tally { marks }, callers) else {
        return Err(AllocError);
    };
    beside(rt, &lock, passes.as_mut_slice(), count);
    Ok(lock.close(passes))
}

#[test]
fn two_threads_of_a_thousand_turns(rt: HostRuntime) -> Result<(), AllocError> {
    let tally = run(&rt, rt.alloc(), 2, 1000)?;
    assert!(&rt; tally.marks.len() == 2000);
    assert!(&rt; tally.numbered(1) == 1000);
    assert!(&rt; tally.numbered(2) == 1000);
    Ok(())
}

#[test]
fn eight_threads_of_250_turns(rt: HostRuntime) -> Result<(), AllocError> {
    let tally = run(&rt, rt.alloc(), 8, 250)?;
    assert!(&rt; tally.marks.len() == 2000);
    for caller in 1..=8 {
        assert!(&rt; tally.numbered(caller) == 250);
    }
    Ok(())
}

// The first caller adds a mark, and the second then has a turn without one. Gives what the lock says
// that the first, the second, and after its turn the second have seen.
fn in_turn<H: Wait>(
    rt: &H,
    lock: &Turnstile<Tally>,
    first: &mut Pass,
    second: &mut Pass,
) -> (u64, u64, u64)
    requires first { IsPassOf (lock_id lock.now) blank_origin first.old }
    requires second { IsPassOf (lock_id lock.now) blank_origin second.old }
    ensures first { IsPassOf (lock_id lock.now) blank_origin first.new }
    ensures second { IsPassOf (lock_id lock.now) blank_origin second.new }
{
    one_turn(rt, lock, first, 1);
    let seen = lock.known(first);
    let before = lock.known(second);
    let turn = lock.take(rt, second);
    lock.give(second, turn);
    (seen, before, lock.known(second))
}

#[test]
fn a_pass_knows_what_it_saw(rt: HostRuntime) -> Result<(), AllocError> {
    let alloc: Global = rt.alloc();
    let marks = Vec::new(alloc);
    let mut back = Vec::with_capacity(alloc, 2)?;
    let Ok((lock, mut passes)) = Turnstile::make(alloc, Tally { marks }, 2) else {
        return Err(AllocError);
    };
    let (Some(mut second), Some(mut first)) = (passes.pop(), passes.pop()) else {
        return Err(AllocError);
    };
    let known = in_turn(&rt, &lock, &mut first, &mut second);
    assert!(&rt; known == (1, 0, 1));
    back.push_reserved(first);
    back.push_reserved(second);
    let tally = lock.close(back);
    assert!(&rt; tally.numbered(1) == 1 && tally.marks.len() == 1);
    Ok(())
}

// A value of such a type may go to another thread.
fn needs_send<T: Send>(_value: &T) {}

// Threads may share a value of such a type.
fn needs_sync<T: Sync>(_value: &T) {}

// A lock may be shared and sent, and passes and turns may be sent, where the value may be sent.
fn cross_threads<V: Counted + Send>(lock: &Turnstile<V>, pass: &Pass, turn: &Turn<V>) {
    needs_send(lock);
    needs_sync(lock);
    needs_send(pass);
    needs_send(turn);
}
