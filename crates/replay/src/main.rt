// Runs a night again from its trace on standard input: a line `SECONDS BOX CODE` for each accepted record, in the trace's order, and last `done N number M`.
// All of the trace is read before the run: one that is larger than the room has a line of its own, and no code is written.
// A read or a write that fails ends the program and is told on standard error, with the system's reason.
#![tactic(auto)]

ghost use Rattle.std.specs.Prelude.{◌≡◌, ◌≤◌, ◌<◌, ◌+◌, ◌++◌, false, true, length};
ghost use Rattle.arrayvec.specs.ArrayVec.{array_vec_len};
ghost use Rattle.trace_run.specs.TraceRun.{run_trace};
ghost use Rattle.text_pieces.specs.TextPieces.{decimal_text};
ghost use Rattle.replay.specs.Replay.{code_line, last_line, too_large_line, run_text, text_left, lines_at_most};

use arrayvec::ArrayVec;
use std::io::{self, ErrorKind};
use std::{env, fmt};
use streams::Reason;
use text_pieces::{put, put_decimal};
use trace::Reader;
use trace_run::Outcome;

// The largest trace that is run, in bytes.
const ROOM: usize = 4194304;

// A record has fourteen numbers of a byte or more, so there are codes for all records of such a trace and one left.
const CODES: usize = ROOM / 14 + 1;

fn main(rt: HostRuntime) {
    if let Err(failure) = replay(rt) {
        let _ = eprintln!(rt; "{failure}");
    }
    if let Err(error) = streams::sync_output(rt) {
        let _ = eprintln!(rt; "{}", Failure::Close(error));
    }
}

// What ended the program, or came at its end, with the system's reason.
#[derive(Clone, Copy)]
enum Failure {
    Arguments(io::Error),
    Usage,
    Read(io::Error),
    Write(io::Error),
    Close(io::Error),
}

impl fmt::Display for Failure {
    fn fmt<W: fmt::Write>(&self, f: &mut fmt::Formatter<W>) -> fmt::Result {
        match *self {
            Failure::Arguments(error) => write!(
                f,
                "replay: cannot read the arguments: {}",
                Reason(error)
            ),
            Failure::Usage => f.write_str("usage: replay [--second-reading] <TRACE"),
            Failure::Read(error) => write!(f, "replay: cannot read the trace: {}", Reason(error)),
            Failure::Write(error) => write!(f, "replay: cannot write the codes: {}", Reason(error)),
            Failure::Close(error) => write!(
                f,
                "replay: cannot close the output: {}",
                Reason(error)
            ),
        }
    }
}

fn replay(rt: HostRuntime) -> Result<(), Failure> {
    let second_reading = is_second_reading(rt)?;
    let mut room = [0; ROOM + 1];
    let mut codes = [0; CODES];
    replay_in(rt, second_reading, &mut room, &mut codes)
}

// With room for one byte more than a trace may have: one that fills it is larger.
// The sizes are parameters, since the check of a slice of so many known bytes would count them one by one.
fn replay_in<const N: usize, const M: usize>(
    rt: HostRuntime,
    second_reading: bool,
    room: &mut [u8; N],
    codes: &mut [u8; M],
) -> Result<(), Failure> {
    let size = streams::read_to_end(rt, room).map_err(Failure::Read)?;
    if size == N {
        return write(rt, too_large_text(ROOM as u64).as_slice());
    }
    let mut text = RunText::new(&room[..size], second_reading, codes);
    let mut chunk: ArrayVec<u8, 65536> = ArrayVec::new();
    while !text.ended {
        text.fill(&mut chunk);
        write(rt, chunk.as_slice())?;
        chunk.clear();
    }
    Ok(())
}

fn write(rt: HostRuntime, text: &[u8]) -> Result<(), Failure> {
    streams::write_all(rt, text).map_err(|(_, error)| Failure::Write(error))
}

// Whether the only argument takes the second reading of the airflow sensor alarm for all boxes; with no argument they have the first.
fn is_second_reading(rt: HostRuntime) -> Result<bool, Failure> {
    let mut words = match env::args(&rt) {
        Ok(words) => words.skip(1),
        Err(error) if error.kind() == ErrorKind::InvalidData => return Err(Failure::Usage),
        Err(error) => return Err(Failure::Arguments(error)),
    };
    match words.next() {
        None => Ok(false),
        Some(word) if word.as_str() == "--second-reading" && words.next().is_none() => Ok(true),
        _ => Err(Failure::Usage),
    }
}

// What is left to make of a run's text. It goes through the accepted records once more, for their times and boxes.
#[derive(Drop)]
struct RunText<'a> {
    // stands past the records that have their lines
    reader: Reader<'a>,
    seconds: u64,
    // of the accepted records that follow
    codes: &'a [u8],
    outcome: Outcome,
    ended: bool,
}

impl<'a> RunText<'a> {
    // All of it: the run is done here.
    fn new(trace: &'a [u8], second_reading: bool, codes: &'a mut [u8]) -> RunText<'a>
        ensures { text_left result ≡ run_text (run_trace trace.now second_reading (length codes.old)) }
    {
        let outcome = trace_run::run(trace, second_reading, codes);
        RunText {
            reader: Reader::new(trace),
            seconds: 0,
            codes: &codes[..outcome.done],
            outcome,
            ended: false,
        }
    }

    // Takes the next lines, as many as have room.
    fn fill(&mut self, chunk: &mut ArrayVec<u8, 65536>)
        ensures text { chunk.new.items ++ text_left self.new ≡ chunk.old.items ++ text_left self.old }
        ensures goes_on { array_vec_len chunk.old ≡ 0 → self.old.ended ≡ false → lines_at_most self.new < lines_at_most self.old }
    {
        while !self.ended && chunk.remaining_capacity() >= 64 {
            let line = self.next_line();
            put(chunk, line.as_slice());
        }
    }

    // The next line, of a text that has one.
    // The steps of accepted records sum up to 2,147,483,648 at most: the tick refuses a later time.
    #[tactic(auto, unfolding(crate::specs::Replay::lines_at_most))]
    fn next_line(&mut self) -> ArrayVec<u8, 64>
        requires { self.old.ended ≡ false }
        ensures text { result.items ++ text_left self.new ≡ text_left self.old }
        ensures goes_on { lines_at_most self.new < lines_at_most self.old }
    {
        let Some((&code, codes)) = self.codes.split_first() else {
            return self.end();
        };
        match self.reader.next_record() {
            Ok(Some(record)) => {
                self.seconds = self.seconds.wrapping_add(record.seconds);
                self.codes = codes;
                code_text(self.seconds, record.box_number, code)
            }
            // neither comes up, since each code has its record
            Ok(None) => self.end(),
            Err(_) => self.end(),
        }
    }

    fn end(&mut self) -> ArrayVec<u8, 64>
        ensures text { result.items ≡ last_line self.old.outcome.done self.old.outcome.number }
        ensures ended { self.new.ended ≡ true }
    {
        self.ended = true;
        last_text(self.outcome.done as u64, self.outcome.number)
    }
}

#[tactic(auto, unfolding(crate::specs::Replay::code_line))]
fn code_text(seconds: u64, box_number: u64, code: u8) -> ArrayVec<u8, 64>
    ensures { result.items ≡ code_line seconds box_number code }
{
    let mut text = ArrayVec::new();
    put_number(&mut text, seconds, b" ");
    put_number(&mut text, box_number, b" ");
    put_number(&mut text, code as u64, b"\n");
    text
}

#[tactic(auto, unfolding(crate::specs::Replay::last_line))]
fn last_text(done: u64, number: u8) -> ArrayVec<u8, 64>
    ensures { result.items ≡ last_line done number }
{
    let mut text = ArrayVec::new();
    put(&mut text, b"done ");
    put_number(&mut text, done, b" number ");
    put_number(&mut text, number as u64, b"\n");
    text
}

#[tactic(auto, unfolding(crate::specs::Replay::too_large_line))]
fn too_large_text(room: u64) -> ArrayVec<u8, 64>
    ensures { result.items ≡ too_large_line room }
{
    let mut text = ArrayVec::new();
    put(&mut text, b"trace larger than ");
    put_number(&mut text, room, b" bytes\n");
    text
}

// A number, and the bytes that stand after it.
fn put_number(text: &mut ArrayVec<u8, 64>, n: u64, after: &[u8])
    requires { array_vec_len text.old + 20 + length after.now ≤ 64 }
    ensures items { text.new.items ≡ text.old.items ++ decimal_text n ++ after.now }
    ensures room { array_vec_len text.new ≤ array_vec_len text.old + 20 + length after.now }
{
    put_decimal(text, n);
    put(text, after);
}
