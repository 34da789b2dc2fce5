// What the programs `to_trace` and `to_text` share (document 02, N6): a conversion from standard input to standard output.
// All of the input is read before the conversion: of one that is larger than the room nothing is converted. What was converted before a refusal is written.
// A refusal, and a read or a write that fails, is told on standard error, and then the status is not 0.
#![tactic(auto)]

ghost use Rattle.std.specs.Prelude.{◌≡◌, ◌≤◌, length};
ghost use Rattle.std.specs.Process.{exit_status};
ghost use Rattle.text_log.specs.Conversion as Conversion;
ghost use Rattle.conversion_filter.specs.Filter as Filter;
ghost use Rattle.conversion_filter.specs.Filter.{conversion};

use std::io::{self, ErrorKind};
use std::process::ExitCode;
use std::{env, fmt};
use streams::Reason;
use text_log::Outcome;

// The largest input that is converted, in bytes.
const ROOM: usize = 1048576;

// A line has 28 bytes or more, and one of 28 gives at most 78; a record of a trace has 14 or more, and one of 14 gives at most 37. Longer ones give fewer for each byte.
const OUTPUT_ROOM: usize = 3 * ROOM;

#[derive(Clone, Copy)]
pub enum Direction {
    ToTrace,
    ToText,
}

// The line or record that was refused, counted from 1, and with which number.
#[derive(Clone, Copy)]
pub struct Refusal {
    pub direction: Direction,
    pub place: u64,
    pub number: u8,
}

// What was converted: how many bytes of the output it takes, and what was refused after it.
#[derive(Clone, Copy)]
pub struct Converted {
    pub written: usize,
    pub refusal: Option<Refusal>,
}

// Why a program did not do all that it was asked to, with the system's reason.
#[derive(Clone, Copy)]
enum Failure {
    Usage(Direction),
    TooLarge(Direction),
    Refused(Refusal),
    Io(Direction, &'static str, io::Error),
}

impl Direction {
    fn program(self) -> &'static str
        ensures { result.now ≡ Filter.program self }
    {
        match self {
            Direction::ToTrace => "to_trace",
            Direction::ToText => "to_text",
        }
    }

    fn piece(self) -> &'static str
        ensures { result.now ≡ Filter.piece self }
    {
        match self {
            Direction::ToTrace => "line",
            Direction::ToText => "record",
        }
    }

    fn usage(self) -> &'static str {
        match self {
            Direction::ToTrace => "usage: to_trace <LOG >TRACE",
            Direction::ToText => "usage: to_text <TRACE >LOG",
        }
    }

    fn input(self) -> &'static str {
        match self {
            Direction::ToTrace => "log",
            Direction::ToText => "trace",
        }
    }

    fn cannot_read(self) -> &'static str {
        match self {
            Direction::ToTrace => "cannot read the log",
            Direction::ToText => "cannot read the trace",
        }
    }

    fn cannot_write(self) -> &'static str {
        match self {
            Direction::ToTrace => "cannot write the trace",
            Direction::ToText => "cannot write the log",
        }
    }
}

impl fmt::Display for Refusal {
    ghost use Rattle.std.specs.Prelude.{Some};
    ghost use Rattle.conversion_filter.specs.Filter.{refusal_text};

    ghost output = { λ r. Some (refusal_text r) };

    #[tactic(auto, unfolding(crate::specs::Filter::refusal_text))]
    fn fmt<W: fmt::Write>(&self, f: &mut fmt::Formatter<W>) -> fmt::Result {
        let program = self.direction.program();
        let piece = self.direction.piece();
        let place = self.place;
        let number = self.number;
        let words = refusal_words(self.number);
        write!(
            f,
            "{program}: {piece} {place} refused with {number}: {words}"
        )
    }
}

impl fmt::Display for Failure {
    fn fmt<W: fmt::Write>(&self, f: &mut fmt::Formatter<W>) -> fmt::Result {
        match *self {
            Failure::Usage(direction) => f.write_str(direction.usage()),
            Failure::TooLarge(direction) => write!(
                f,
                "{}: {} larger than {} bytes",
                direction.program(),
                direction.input(),
                ROOM
            ),
            Failure::Refused(refusal) => refusal.fmt(f),
            Failure::Io(direction, what, error) => write!(
                f,
                "{}: {what}: {}",
                direction.program(),
                Reason(error)
            ),
        }
    }
}

// What a refusal's number means.
#[tactic(auto, unfolding(crate::specs::Filter::refusal_words))]
fn refusal_words(number: u8) -> &'static str
    ensures { result.now ≡ Filter.refusal_words number }
{
    match number {
        20 => "the trace ends inside the record",
        21 => "a number is over 2^64 - 1, or its last group is a needless zero",
        22 => "the box is above 15",
        23 => "the flags are above 7",
        24 => "the mode or an override is above 255",
        25 => "the seconds are above 2147483648",
        27 => "the seconds are 0, and the box is not above that of the record before",
        50 =>
            "the line is not six integers and eight readings, joined by commas and ended by a newline",
        51 => "a reading has more than 15 digits, or more than 6 after the point",
        52 => "a reading is a zero with a minus",
        53 => "no decimal of at most 15 digits, at most 6 after the point, gives a reading",
        _ => "there is no room for the whole record",
    }
}

// The program of the direction, and the status with which it ends: 0 where all of the input is converted and nothing failed.
pub fn run(rt: HostRuntime, direction: Direction) -> ExitCode
    ensures { exit_status result ≤ 1 }
{
    let mut status = ExitCode::SUCCESS;
    if let Err(failure) = filter(rt, direction) {
        let _ = eprintln!(rt; "{failure}");
        status = ExitCode::FAILURE;
    }
    if let Err(error) = streams::sync_output(rt) {
        let _ = eprintln!(rt;
            "{}",
            Failure::Io(direction, "cannot close the output", error)
        );
        status = ExitCode::FAILURE;
    }
    status
}

fn filter(rt: HostRuntime, direction: Direction) -> Result<(), Failure> {
    no_arguments(rt, direction)?;
    let mut room = [0; ROOM + 1];
    let mut output = [0; OUTPUT_ROOM];
    filter_in(rt, direction, &mut room, &mut output)
}

fn no_arguments(rt: HostRuntime, direction: Direction) -> Result<(), Failure> {
    let mut words = match env::args(&rt) {
        Ok(words) => words.skip(1),
        Err(error) if error.kind() == ErrorKind::InvalidData => return Err(Failure::Usage(
            direction,
        )),
        Err(error) => return Err(Failure::Io(direction, "cannot read the arguments", error)),
    };
    match words.next() {
        None => Ok(()),
        Some(_) => Err(Failure::Usage(direction)),
    }
}

// With room for one byte more than the input may have: one that fills it is larger.
// The sizes are parameters, since the check of a slice of so many known bytes would count them one by one.
fn filter_in<const N: usize, const M: usize>(
    rt: HostRuntime,
    direction: Direction,
    room: &mut [u8; N],
    output: &mut [u8; M],
) -> Result<(), Failure> {
    let size = streams::read_to_end(rt, room).map_err(|error| Failure::Io(
        direction,
        direction.cannot_read(),
        error,
    ))?;
    if size == N {
        return Err(Failure::TooLarge(direction));
    }
    let converted = convert(direction, &room[..size], output);
    streams::write_all(rt, &output[..converted.written]).map_err(|(_, error)| Failure::Io(
        direction,
        direction.cannot_write(),
        error,
    ))?;
    match converted.refusal {
        None => Ok(()),
        Some(refusal) => Err(Failure::Refused(refusal)),
    }
}

// What is told of a conversion. No input has as many lines or records as a u64 counts.
#[tactic(auto, unfolding(crate::specs::Filter::refusal))]
fn convert(direction: Direction, input: &[u8], output: &mut [u8]) -> Converted
    ensures written { result.written ≡ length (conversion direction input.now (length output.old)).written }
    ensures refusal { result.refusal ≡ Filter.refusal direction (conversion direction input.now (length output.old)) }
    ensures output { output.new ≡ Conversion.output (conversion direction input.now (length output.old)) output.old }
{
    let outcome = outcome_of(direction, input, output);
    let refusal = if outcome.number == 0 {
        None
    } else {
        Some(Refusal {
            direction,
            place: outcome.done as u64 + 1,
            number: outcome.number,
        })
    };
    Converted {
        written: outcome.written,
        refusal,
    }
}

#[tactic(auto, unfolding(crate::specs::Filter::conversion))]
fn outcome_of(direction: Direction, input: &[u8], output: &mut [u8]) -> Outcome
    ensures outcome { result ≡ Conversion.outcome (conversion direction input.now (length output.old)) }
    ensures output { output.new ≡ Conversion.output (conversion direction input.now (length output.old)) output.old }
{
    match direction {
        Direction::ToTrace => text_log::to_trace(input, output),
        Direction::ToText => text_log::to_text(input, output),
    }
}
