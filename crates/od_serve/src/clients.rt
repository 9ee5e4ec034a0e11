//! The clients of a script, run one after another.
ghost use Rattle.std.specs.Prelude.{◌≡◌, ◌≤◌, [], length, false, is_err, IfOk, IsTrue};
ghost use Rattle.od_order.specs.declared.script.TheConstants.{CLIENTS, ORDERS};
ghost use Rattle.od_order.specs.Scripts.{order_count};
ghost use Rattle.od_model.specs.History.Legal.{mine};
ghost use Rattle.od_model.specs.History.Orders.{Follows, Begins};
ghost use Rattle.od_model.specs.Run.Clients.{EachClient, OfClients};
ghost use Rattle.od_desk.specs.Further.{Alone};
ghost use Rattle.od_serve.specs.Running.Went.{WentFar};

use crate::run::run_client;
use od_desk::desk::{Desk, Stop};
use od_io::{Failed, Runner, Sink};
use od_order::script::Order;
use od_text::list::List;
use std::alloc::Global;

/// Follows a client's orders as far as there is memory, and gives whether that is to their end. Only a write that failed ends
/// the others too.
fn run_as_far<W: Sink, R: Runner + Drop>(
    alloc: Global,
    desk: &mut Desk<W, R>,
    caller: u32,
    orders: List<Order>,
) -> Result<bool, Failed>
    requires whole { desk.old.cut ≡ false }
    requires fresh { mine caller desk.old.history ≡ [] }
    requires few { length orders ≤ ORDERS }
    ensures went { WentFar caller orders result desk.old desk.new }
    ensures alone { Alone caller desk.old.history desk.new.history }
{
    match run_client(alloc, desk, caller, orders) {
        Ok(()) => Ok(true),
        Err(Stop::NoMemory) => Ok(false),
        Err(Stop::WriteFault) => Err(Failed),
    }
}

/// Follows each client's orders, the first client being caller 1, and gives whether all were followed to their end. A client for
/// which memory is refused ends there, and the others go on; after a write that failed nobody does.
pub fn run_clients<W: Sink, R: Runner + Drop>(
    alloc: Global,
    desk: &mut Desk<W, R>,
    clients: List<List<Order>>,
) -> Result<bool, Failed>
    requires whole { desk.old.cut ≡ false }
    requires empty { desk.old.history ≡ [] }
    requires few { length clients ≤ CLIENTS }
    requires short { order_count clients ≤ ORDERS }
    ensures origin { desk.new.origin ≡ desk.old.origin }
    ensures callers { OfClients clients desk.new.history }
    ensures follows { IfOk result (λ whole. IsTrue whole
        → EachClient Follows clients desk.new.history) }
    ensures begins { EachClient Begins clients desk.new.history }
    ensures cut { desk.new.cut ≡ is_err result }
{
    let mut caller: u32 = 1;
    let mut whole = true;
    'clients: for orders in clients.into_vec() {
        whole &= run_as_far(alloc, desk, caller, orders)?;
        caller += 1;
    }
    Ok(whole)
}
