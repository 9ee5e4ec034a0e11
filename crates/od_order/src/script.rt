//! Scripts: the grammars and each client's orders.
use od_command::history::Command;
use od_pattern::grammar::Head;
use od_text::list::List;
use od_text::text::Text;

/// The most bytes that a script may have: 64 MiB.
pub const SCRIPT_BYTES: usize = 67_108_864;

/// The most bytes of a name.
pub const NAME_BYTES: usize = 64;

/// The most digits of a number.
pub const NUMBER_DIGITS: usize = 9;

/// The most grammars that a script may have.
pub const HEADS: usize = 16;

/// The most clients that a script may have.
pub const CLIENTS: usize = 8;

/// The most orders that a script may have, those of all clients together.
pub const ORDERS: usize = 10_000;

/// What a script asks of a client: one command, or steps of a session up to the first answer that ends them.
#[derive(Debug, Drop)]
pub enum Order {
    One(Command),
    /// The session's name.
    Run(Text),
}

/// A script that was read.
#[derive(Debug, Drop)]
pub struct Script {
    /// The grammars that `open` may name.
    pub heads: List<Head>,
    /// The orders of each client; the first client is caller 1.
    pub clients: List<List<Order>>,
}
