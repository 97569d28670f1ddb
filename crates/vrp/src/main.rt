//! The program `vrp`: the words after its name, standard input, and standard output.
#![tactic(auto)]

ghost use Rattle.std.specs.Prelude.{◌≡◌};
ghost use Rattle.std.specs.Process.{exit_status};

use std::io::ErrorKind;
use std::process::ExitCode;
use std::rt::{Env, Runtime};
use std::thread::Threads;
use std::{env, io};
use vrp_cli::run_vrp;
use vrp_io::{NoGate, StdSink, StdSource};

fn main(rt: HostRuntime) -> ExitCode {
    match words(&rt) {
        Ok(words) => run(&rt, words.as_slice()),
        Err(fault) => run_without_words(&rt, fault.kind()),
    }
}

/// The words after the program's name.
fn words<R: Env + AllocGlobal>(rt: &R) -> io::Result<Vec<String>> {
    let mut words = env::args(rt)?;
    let _name = words.next();
    Ok(words.collect(rt.alloc())?)
}

/// A word that is no text is not taken. Where there is no memory for the words, nothing is written.
fn run_without_words<R: Runtime + AllocGlobal + Threads + Sync>(rt: &R, kind: ErrorKind) -> ExitCode
    ensures { kind ≡ ErrorKind.OutOfMemory → exit_status result ≡ 9 }
{
    if kind == ErrorKind::OutOfMemory {
        return ExitCode::from(9);
    }
    run(rt, &[])
}

/// Runs the program over standard input and standard output.
fn run<R: Runtime + AllocGlobal + Threads + Sync>(rt: &R, words: &[String]) -> ExitCode {
    let mut source = StdSource::new(rt.reader());
    let mut sink = StdSink::new(io::writer(rt));
    let status = run_vrp(rt, rt.alloc(), words, &mut source, &mut sink, &NoGate);
    ExitCode::from(status.number)
}
