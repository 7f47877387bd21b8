//! What all parts of the desk share: names and other short texts, the commands and answers of the
//! desk, and the streams of bytes that it reads and writes.
#![tactic(auto)]

mod answer;
mod command;
mod estate_fault;
mod failure;
mod group_fault;
mod group_state;
mod inline_bytes;
mod interrupted;
mod mem_sink;
mod mem_source;
mod name;
mod path;
mod placement;
mod plan_fault;
mod refusal;
mod request_fault;
mod rows;
mod side;
mod sink;
mod source;
mod std_sink;
mod std_source;
mod stop;
mod text;

pub use answer::{Answer, Long, Thing};
pub use command::{Command, Op, RunWords};
pub use estate_fault::{EstateFault, Limit};
pub use failure::{Failed, NoMemory};
pub use group_fault::GroupFault;
pub use group_state::{GroupState, Phase};
pub use inline_bytes::InlineBytes;
pub use mem_sink::MemSink;
pub use mem_source::MemSource;
pub use name::Name;
pub use path::Path;
pub use placement::{Callout, Kind, Placement, Unmapped};
pub use plan_fault::PlanFault;
pub use refusal::{AmendKind, Refusal, SlotKind};
pub use request_fault::{Method, RequestFault};
pub use rows::Rows;
pub use side::Side;
pub use sink::Sink;
pub use source::Source;
pub use std_sink::StdSink;
pub use std_source::StdSource;
pub use stop::Stop;
pub use text::Text;
