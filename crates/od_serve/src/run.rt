//! A client's orders, followed one after another at the desk.
ghost use Rattle.std.specs.Prelude.{◌≡◌, ◌+◌, ◌^◌, ◌<◌, ◌≤◌, [], ◌∷◌, length, false, IfOk};
ghost use Rattle.od_model.specs.History.Legal.{mine};
ghost use Rattle.od_order.specs.declared.script.Order.TheVariants.{Run};
ghost use Rattle.od_order.specs.declared.script.TheConstants.{ORDERS};
ghost use Rattle.od_session.specs.declared.object.TheConstants.{SESSION_ROUNDS};
ghost use Rattle.od_desk.specs.Further.{Alone};
ghost use Rattle.od_serve.specs.Running.Went.{Went, IsNextCall};

use od_command::history::Command;
use od_desk::desk::{Desk, Stop};
use od_io::{Runner, Sink};
use od_order::script::Order;
use od_text::list::List;
use od_text::text::{Copied, Text};
use std::alloc::Global;

/// Steps a session until a reply that ends the run. Gives the number of the caller's next call.
fn run_steps<W: Sink, R: Runner + Drop>(
    alloc: Global,
    desk: &mut Desk<W, R>,
    caller: u32,
    call: u32,
    name: &Text,
) -> Result<u32, Stop>
    requires whole { desk.old.cut ≡ false }
    requires call { call ≡ length (mine caller desk.old.history) + 1 }
    requires room { call + SESSION_ROUNDS + 1 < 2 ^ 32 }
    ensures went { Went caller (Run name.now ∷ []) result desk.old desk.new }
    ensures next { IfOk result (IsNextCall caller call desk.new.history) }
    ensures alone { Alone caller desk.old.history desk.new.history }
{
    let mut steps: u32 = 0;
    'steps: loop {
        let command = Command::Step {
            name: name.copy(alloc)?,
        };
        if !desk.answer(alloc, caller, call + steps, command)? {
            return Ok(call + steps + 1);
        }
        steps += 1;
    }
}

/// Follows one order. Gives the number of the caller's next call.
fn follow<W: Sink, R: Runner + Drop>(
    alloc: Global,
    desk: &mut Desk<W, R>,
    caller: u32,
    call: u32,
    order: Order,
) -> Result<u32, Stop>
    requires whole { desk.old.cut ≡ false }
    requires call { call ≡ length (mine caller desk.old.history) + 1 }
    requires room { call + SESSION_ROUNDS + 1 < 2 ^ 32 }
    ensures went { Went caller (order ∷ []) result desk.old desk.new }
    ensures next { IfOk result (IsNextCall caller call desk.new.history) }
    ensures alone { Alone caller desk.old.history desk.new.history }
{
    match order {
        Order::One(command) => {
            desk.answer(alloc, caller, call, command)?;
            Ok(call + 1)
        }
        Order::Run(name) => run_steps(alloc, desk, caller, call, &name),
    }
}

/// Follows a client's orders to their end, or until one cannot be answered.
pub fn run_client<W: Sink, R: Runner + Drop>(
    alloc: Global,
    desk: &mut Desk<W, R>,
    caller: u32,
    orders: List<Order>,
) -> Result<(), Stop>
    requires whole { desk.old.cut ≡ false }
    requires fresh { mine caller desk.old.history ≡ [] }
    requires few { length orders ≤ ORDERS }
    ensures went { Went caller orders result desk.old desk.new }
    ensures alone { Alone caller desk.old.history desk.new.history }
{
    let mut call: u32 = 1;
    'orders: for order in orders.into_vec() {
        call = follow(alloc, desk, caller, call, order)?;
    }
    Ok(())
}
