//! Machines and a runner in files, beside the same calls of the system: machines are registered and
//! started at B, and commands are kept.

use crate::fault::Fault;
use crate::files::{add, replace};
use crate::times::Times;
use dr_base::{Name, Path, Placement, Side};
use dr_lab::{FilePort, FileRunner};
use dr_outside::{Port, Post, Runner};
use std::alloc::{AllocError, Global};
use std::fs;
use std::time::{Duration, Instant};

const KEPT: &str = "runner.kept";

const PLAIN: &str = "plain.kept";

/// The placement of machines that are started.
pub(crate) fn placement() -> Option<Placement> {
    Some(Placement {
        network: Name::read(b"lan-b")?,
        folder: Path::read(b"dr/web")?,
        pool: Name::read(b"gold-b")?,
    })
}

// How long it takes to replace a file by one with the text that the machine's file has now.
fn replaced(rt: &HostRuntime, machine: u32) -> Result<Duration, Fault> {
    let alloc = rt.alloc();
    let text = fs::read(rt, format!(in alloc; "machine-{machine}.site")?.as_str())?;
    let name = format!(in alloc; "plain-{machine}.site")?;
    let beside = format!(in alloc; "plain-{machine}.site.new")?;
    let start = Instant::now(rt)?;
    replace(rt, beside.as_str(), name.as_str(), &text)?;
    Ok(start.elapsed(rt)?)
}

// Registers and starts one machine, by two calls. Whether it is ready then.
fn start(
    rt: &HostRuntime,
    machine: u32,
    place: &Placement,
    times: &mut Times,
) -> Result<bool, Fault> {
    let mut port = FilePort::new(rt, machine);
    let start = Instant::now(rt)?;
    if port.register(Side::B, *place, false).is_err() {
        return Err(Fault::Site);
    }
    times.push(start.elapsed(rt)?, replaced(rt, machine)?)?;
    let start = Instant::now(rt)?;
    if port.start(Side::B).is_err() {
        return Err(Fault::Site);
    }
    times.push(start.elapsed(rt)?, replaced(rt, machine)?)?;
    Ok(matches!(port.post(Side::B), Ok(Post::Ready(_))))
}

// Registers and starts so many machines. How many are ready then.
fn start_all(
    rt: &HostRuntime,
    count: u32,
    place: &Placement,
    times: &mut Times,
) -> Result<u32, Fault> {
    let mut ready = 0_u32;
    for machine in 0..count {
        if start(rt, machine, place, times)? {
            ready = ready.saturating_add(1);
        }
    }
    Ok(ready)
}

/// Registers and starts so many machines that have no files yet, and prints how many are ready then.
pub(crate) fn run_machines(rt: &HostRuntime, count: u32) -> Result<Times, Fault> {
    let Some(place) = placement() else {
        return Err(Fault::Site);
    };
    let mut times = Times::new(rt.alloc());
    let ready = start_all(rt, count, &place, &mut times)?;
    println!(rt; "machines {count}: {ready} ready")?;
    Ok(times)
}

// The line of a kept command with this token.
fn line(alloc: Global, token: u64) -> Result<String, AllocError> {
    format!(in alloc; "token {token} code 0 side none name warm\n")
}

// The lines of so many kept commands.
fn lines(alloc: Global, count: u32) -> Result<Vec<u8>, Fault> {
    let mut lines = Vec::new(alloc);
    for token in 0..count {
        lines.extend_from_slice(line(alloc, u64::from(token))?.as_bytes())?;
    }
    Ok(lines)
}

// How long it takes to add the line of one command to a plain file.
fn added(rt: &HostRuntime, token: u64) -> Result<Duration, Fault> {
    let line = line(rt.alloc(), token)?;
    let start = Instant::now(rt)?;
    add(rt, "plain.kept.new", PLAIN, line.as_bytes())?;
    Ok(start.elapsed(rt)?)
}

// Runs so many commands, with the tokens from this one on.
fn call_all(
    rt: &HostRuntime,
    first: u32,
    more: u32,
    name: &Name,
    times: &mut Times,
) -> Result<(), Fault> {
    let mut runner = FileRunner::new(rt);
    let first = u64::from(first);
    for token in first..first + u64::from(more) {
        let start = Instant::now(rt)?;
        if runner.call(token, *name).is_err() {
            return Err(Fault::Site);
        }
        times.push(start.elapsed(rt)?, added(rt, token)?)?;
    }
    Ok(())
}

/// Runs so many commands more where `count` are kept, and prints how long their file is then.
pub(crate) fn run_kept(rt: &HostRuntime, count: u32, more: u32) -> Result<Times, Fault> {
    let Some(name) = Name::read(b"warm") else {
        return Err(Fault::Site);
    };
    let lines = lines(rt.alloc(), count)?;
    fs::write(rt, KEPT, &lines)?;
    fs::write(rt, PLAIN, &lines)?;
    let mut times = Times::new(rt.alloc());
    call_all(rt, count, more, &name, &mut times)?;
    let kept = fs::read(rt, KEPT)?;
    if kept != fs::read(rt, PLAIN)? {
        return Err(Fault::Differs);
    }
    let length = kept.len();
    println!(rt; "kept {count} commands and {more} more: {length} bytes of file")?;
    Ok(times)
}
