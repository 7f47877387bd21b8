//! What the desk asks of replicated storage, of machines, of the runner of commands and of the
//! clock: a trait for each, with all that a call may leave. And an array and a machine in memory.
#![tactic(auto)]

mod array;
mod clock;
mod decimals;
mod exit_codes;
mod machine;
mod pair;
mod pair_list;
mod plain_array;
mod plain_port;
mod port;
mod runner;
mod sides;

pub use array::{Array, ArrayCall, ArrayFail, call_array};
pub use clock::Clock;
pub use decimals::read_decimal;
pub use exit_codes::exit_code;
pub use machine::{Kept, Placed, PortCall, PortFail, Post};
pub use pair::{Content, Half, Link, Pair, Snapshot};
pub use pair_list::{first_unfit, is_pair_list, make_all, target_half};
pub use plain_array::PlainArray;
pub use plain_port::PlainPort;
pub use port::Port;
pub use runner::{Runner, RunnerFail};
pub use sides::Sides;
