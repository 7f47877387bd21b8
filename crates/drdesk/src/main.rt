//! The program `drdesk`: one call of the desk on plain pairs and machines in memory, with standard
//! input and output.
#![tactic(auto)]

mod arguments;

use arguments::words;
use dr_base::{NoMemory, StdSink, StdSource};
use dr_desk::desk;
use dr_outside::{PlainArray, PlainPort};
use std::io;
use std::process::ExitCode;

/// How many pairs the array has.
const PAIRS: u32 = 1_024;

/// How many machines have a port.
const PORTS: usize = 2_000;

/// The status where memory was wanting before the desk was called.
const NO_MEMORY: u8 = 11;

fn run(rt: &HostRuntime) -> Result<u8, NoMemory> {
    let alloc = rt.alloc();
    let words = words(rt, alloc)?;
    let mut array = PlainArray::opening(alloc, PAIRS, Vec::new(alloc))?;
    let mut ports = Vec::with_capacity(alloc, PORTS)?;
    for _ in 0..PORTS {
        ports.push(PlainPort::opening(Vec::new(alloc)))?;
    }
    let mut source = StdSource::new(rt.reader());
    let mut sink = StdSink::new(io::writer(rt));
    let ended = desk(
        alloc,
        &words,
        &mut array,
        &mut ports,
        &mut source,
        &mut sink,
    );
    Ok(ended.status)
}

fn main(rt: HostRuntime) -> ExitCode {
    match run(&rt) {
        Ok(status) => ExitCode::from(status),
        Err(NoMemory) => ExitCode::from(NO_MEMORY),
    }
}
