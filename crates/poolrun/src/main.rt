//! `poolrun` runs a schedule from standard input and prints a reply a line. Its words say how many workers make the parity of plans, and how
//! many threads send the lines behind `threads`. Its status is 0 where the whole schedule was run, and else 2.
#![tactic(auto)]

use clap::{Arg, ArgMatches, Command, value_parser};
use programs::{Alone, ExitStatus, PoolOnDisks, Workers, schedule};
use std::alloc::{AllocError, Global};
use std::io::{BufReader, BufWriter, ErrorKind};
use std::process::ExitCode;
use std::sync::Wait;
use std::thread::Threads;
use std::{env, io};
use thread_schedules::{SharedPlanner, schedule_in_threads};

const ABOUT: &str =
    "Runs a schedule from standard input against a storage pool, and prints a reply a line";

const WORKERS: &str = "This many workers make the parity of plans, each in a thread of its own";

const THREADS: &str =
    "This many threads send the lines behind `threads`, and the record of all steps is printed";

/// What the words ask for.
#[derive(Clone, Copy)]
struct Options {
    workers: Option<usize>,
    threads: Option<usize>,
}

/// What comes of the words.
enum Asked {
    Run(Options),
    /// No run: something was told, and this is the status.
    Told(u8),
}

/// A number from 1 to 64 that may be left out.
fn number<'a>(alloc: Global, name: &'a str, letter: char, help: &'a str) -> Arg<'a> {
    Arg::new(alloc, name)
        .short(letter)
        .value_name("N")
        .value_parser(value_parser!(usize).range(1..=64))
        .help(help)
}

fn parser<'a>(alloc: Global) -> Result<Command<'a>, AllocError> {
    let command = Command::new(alloc, "poolrun").version("1.0").about(ABOUT);
    let command = command.arg(number(alloc, "workers", 'w', WORKERS))?;
    command.arg(number(alloc, "threads", 't', THREADS))
}

fn options_of(matches: &ArgMatches) -> Options {
    Options {
        workers: matches.get_one("workers"),
        threads: matches.get_one("threads"),
    }
}

/// Prints what the words ask for in place of a run, and gives the status then.
fn print_told(rt: &HostRuntime, error: &clap::Error) -> io::Result<u8> {
    error.print(rt)?;
    Ok(if error.use_stderr() { 2 } else { 0 })
}

fn read_words(rt: &HostRuntime, alloc: Global) -> io::Result<Asked> {
    let words: Vec<String> = env::args(rt)?.collect(alloc)?;
    match parser(alloc)?.try_get_matches_from(words.as_slice()) {
        Ok(matches) => Ok(Asked::Run(options_of(&matches))),
        Err(error) => Ok(Asked::Told(print_told(rt, &error)?)),
    }
}

/// Runs the schedule with plans that this planner makes, and gives its status. Threads are started through `starter`.
fn run_planned<X: SharedPlanner + Sync, R: Threads + Wait + Sync>(
    rt: &HostRuntime,
    starter: &R,
    planner: &X,
    alloc: Global,
    threads: Option<usize>,
) -> io::Result<u8>
    requires { X.ready }
{
    let input = BufReader::new(alloc, rt.reader())?;
    let mut output = BufWriter::new(alloc, io::writer(rt))?;
    let errors = &mut rt.stderr();
    let status: ExitStatus = match threads {
        None => schedule::<PoolOnDisks, _, _, _, _>(planner, alloc, input, &mut output, errors),
        Some(threads) => schedule_in_threads::<PoolOnDisks, _, _, _, _, _>(
            starter,
            planner,
            alloc,
            threads.clamp(1, 64),
            input,
            &mut output,
            errors,
        ),
    };
    Ok(status.number())
}

fn run<R: Threads + Wait + Sync>(rt: &HostRuntime, starter: &R) -> io::Result<u8> {
    let alloc = rt.alloc();
    let options = match read_words(rt, alloc)? {
        Asked::Run(options) => options,
        Asked::Told(status) => return Ok(status),
    };
    match options.workers {
        None => run_planned(rt, starter, &Alone, alloc, options.threads),
        Some(workers) => {
            let workers = Workers::new(starter, workers.max(1));
            run_planned(rt, starter, &workers, alloc, options.threads)
        }
    }
}

fn main(rt: HostRuntime) -> ExitCode {
    let status = match run(&rt, &rt) {
        Ok(status) => status,
        Err(error) => {
            let fault = if error.kind() == ErrorKind::OutOfMemory {
                "out of memory"
            } else {
                "output"
            };
            // Where this can't be told either, the status still says it.
            let _ = eprintln!(rt; "poolrun: {fault}");
            2
        }
    };
    ExitCode::from(status)
}
