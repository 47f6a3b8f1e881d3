//! The fares desk: quotes air itineraries by mileage fare construction. `main` calls `fare_run::run`, the whole
//! program, over the real source, sink, file of editions and door; `progress` shows on a terminal how much of a batch
//! is done.
#![tactic(auto)]

mod progress;

use fare_devices::{StdSink, StdSource, TcpDoor};
use fare_ports::NoMemory;
use fare_run::{Exit, fault_text, run};
use fare_split::Turnstile;
use fare_sqlite::{FileKeeper, FoundFile, Wary};
use progress::Progress;
use std::io::{ErrorKind, Write};
use std::process::ExitCode;
use std::thread::Threads;
use std::{env, io};

fn main(rt: HostRuntime) -> ExitCode {
    let exit = match words_after_the_first(&rt) {
        Ok(words) => run_over_files::<Wary, HostRuntime>(&rt, &rt, words.as_slice()),
        Err(exit) => exit,
    };
    if exit.status() != 0 {
        tell(&rt, &exit);
    }
    ExitCode::from(exit.status())
}

/// Runs the program over the real source, sink, file of editions and door. What `run` says of the bodies of its store
/// is proved for any contents `S` of the file and its log.
fn run_over_files<S: FoundFile, R: Threads + Sync>(
    rt: &R,
    host: &HostRuntime,
    words: &[String],
) -> Exit {
    let mut source = StdSource::new(host);
    let mut sink = StdSink::new(host);
    let mut store = FileKeeper::<S>::new(host);
    let mut door = TcpDoor::new(host);
    run(
        rt,
        host.alloc(),
        words,
        &mut source,
        &mut sink,
        &mut store,
        &mut door,
        &Turnstile::new(),
        &mut Progress::new(host),
    )
}

/// The words behind the program's own name. A word that isn't UTF-8 is none that the program takes.
fn words_after_the_first(rt: &HostRuntime) -> Result<Vec<String>, Exit> {
    let mut words = Vec::new(rt.alloc());
    for word in env::args(rt).map_err(exit_of)?.skip(1) {
        words.push(word).map_err(|_| Exit::Memory)?;
    }
    Ok(words)
}

fn exit_of(error: io::Error) -> Exit {
    match error.kind() {
        ErrorKind::OutOfMemory => Exit::Memory,
        _ => Exit::Usage,
    }
}

/// Prints on standard error why the program ends. Where that fails too, nothing more can be done.
fn tell(rt: &HostRuntime, exit: &Exit) {
    let mut standard_error = rt.stderr();
    let _ = match fault_text(rt.alloc(), exit) {
        Ok(line) => standard_error.write_all(line.as_slice()),
        Err(NoMemory) => standard_error.write_all(b"NO MEMORY\n"),
    };
}
