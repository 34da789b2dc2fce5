// Average requests over a night (document 02, N10), from its trace on standard input: for each box that is present a line
// `BOX SECONDS TOP/BOTTOM TOP/BOTTOM S0 S12 S13 S23 S34`, or the number that refuses the trace.
// A read or a write that fails ends the program and is told on standard error, with the system's reason.
#![tactic(auto)]

use request_averages::LARGEST;
use std::io::{self, ErrorKind};
use std::{env, fmt};
use streams::Reason;

fn main(rt: HostRuntime) {
    if let Err(failure) = averages(rt) {
        let _ = eprintln!(rt; "{failure}");
    }
    if let Err(error) = streams::sync_output(rt) {
        let _ = eprintln!(rt; "{}", Failure::Io("cannot close the output", error));
    }
}

// What ended the program, or came at its end, with the system's reason.
#[derive(Clone, Copy)]
enum Failure {
    Usage,
    Io(&'static str, io::Error),
}

impl fmt::Display for Failure {
    fn fmt<W: fmt::Write>(&self, f: &mut fmt::Formatter<W>) -> fmt::Result {
        match *self {
            Failure::Usage => f.write_str("usage: averages <TRACE"),
            Failure::Io(what, error) => write!(f, "averages: {what}: {}", Reason(error)),
        }
    }
}

fn averages(rt: HostRuntime) -> Result<(), Failure> {
    no_arguments(rt)?;
    let mut room = [0; LARGEST + 1];
    averages_in(rt, &mut room)
}

// It takes no argument, and any is an error: `replay` has one, by which another reading of the airflow sensor alarm is chosen.
fn no_arguments(rt: HostRuntime) -> Result<(), Failure> {
    let mut words = match env::args(&rt) {
        Ok(words) => words.skip(1),
        Err(error) if error.kind() == ErrorKind::InvalidData => return Err(Failure::Usage),
        Err(error) => return Err(Failure::Io("cannot read the arguments", error)),
    };
    match words.next() {
        None => Ok(()),
        Some(_) => Err(Failure::Usage),
    }
}

// With room for one byte more than a trace may have: of a larger one no more is read.
// The size is a parameter, since the check of a slice of so many known bytes would count them one by one.
fn averages_in<const N: usize>(rt: HostRuntime, room: &mut [u8; N]) -> Result<(), Failure> {
    let size = streams::read_to_end(rt, room).map_err(|error| Failure::Io(
        "cannot read the trace",
        error,
    ))?;
    let text = request_averages::night_text(&room[..size]);
    streams::write_all(rt, text.as_slice()).map_err(|(_, error)| Failure::Io(
        "cannot write the averages",
        error,
    ))
}
