//! The program `bench`: the work of the desk's storage and of a wave, each kind beside a plain loop of the same work
//! in the same run, in the current folder. Its words are a case and its numbers; the word `times` behind
//! them has the times told too. The word `smallest` alone runs each case at its smallest.
#![tactic(auto)]

mod append;
mod fault;
mod files;
mod site;
mod times;
mod walk;
mod wave;

use fault::Fault;
use std::env;
use std::process::ExitCode;
use std::thread::Threads;
use times::Times;

// Runs the case of this name with these numbers, which prints what it counted.
fn run(
    rt: &HostRuntime,
    threads: &(impl Threads + Sync),
    name: &str,
    numbers: &[u32],
) -> Result<Times, Fault> {
    match (name, numbers) {
        ("append", [count, size]) => append::run(rt, *count, *size),
        ("walk", [count, size]) => walk::run(rt, *count, *size),
        ("decode", [count]) => walk::run_decoding(rt, *count),
        ("machines", [count]) => site::run_machines(rt, *count),
        ("kept", [count, more]) => site::run_kept(rt, *count, *more),
        ("wave", [count]) => wave::run(rt, threads, *count),
        _ => Err(Fault::Words),
    }
}

// Runs each case at its smallest.
fn run_smallest(rt: &HostRuntime, threads: &(impl Threads + Sync)) -> Result<(), Fault> {
    run(rt, threads, "append", &[2, 14])?;
    run(rt, threads, "walk", &[3, 14])?;
    run(rt, threads, "decode", &[3])?;
    run(rt, threads, "machines", &[2])?;
    run(rt, threads, "kept", &[2, 2])?;
    run(rt, threads, "wave", &[3])?;
    Ok(())
}

// Runs the case that these words tell: its name and its numbers.
fn run_case(
    rt: &HostRuntime,
    threads: &(impl Threads + Sync),
    words: &[String],
) -> Result<Times, Fault> {
    let [name, rest @ ..] = words else {
        return Err(Fault::Words);
    };
    let mut numbers = Vec::new(rt.alloc());
    for word in rest {
        let Ok(number) = word.parse::<u32>() else {
            return Err(Fault::Words);
        };
        numbers.push(number)?;
    }
    run(rt, threads, name.as_str(), &numbers)
}

fn run_words(
    rt: &HostRuntime,
    threads: &(impl Threads + Sync),
    words: &[String],
) -> Result<(), Fault> {
    match words {
        [word] if word.as_str() == "smallest" => run_smallest(rt, threads),
        [words @ .., last] if last.as_str() == "times" => run_case(rt, threads, words)?.print(rt),
        _ => {
            run_case(rt, threads, words)?;
            Ok(())
        }
    }
}

// The words after the program's name.
fn words(rt: &HostRuntime) -> Result<Vec<String>, Fault> {
    let mut words = Vec::new(rt.alloc());
    for word in env::args(rt)?.skip(1) {
        words.push(word)?;
    }
    Ok(words)
}

fn run_program(rt: &HostRuntime, threads: &(impl Threads + Sync)) -> Result<(), Fault> {
    let words = words(rt)?;
    run_words(rt, threads, &words)
}

fn main(rt: HostRuntime) -> ExitCode {
    match run_program(&rt, &rt) {
        Ok(()) => ExitCode::SUCCESS,
        Err(fault) => {
            let _ = eprintln!(rt; "bench: {fault}");
            ExitCode::FAILURE
        }
    }
}
