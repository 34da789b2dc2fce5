// How a program reads standard input and writes standard output so that nothing is lost in silence: interrupted calls are made again, turns are counted, and a failure is handed on with the system's reason.
// Nothing says that a stream ends or takes what it is given, so turns are counted up to a number that no run reaches.
#![tactic(auto)]

ghost use Rattle.std.specs.Prelude.{◌≤◌, ◌≢◌, IfErr, IfOk, length};
ghost use Rattle.std.specs.Io.{ReadsAtMost};
ghost use Rattle.std.specs.IoError.{error_kind};

use std::fmt::{self, InlineText};
use std::fs::{self, OpenOptions};
use std::io::{self, ErrorKind, Read, Write};
use std::thread;

const OUTPUT: &str = "/dev/stdout";

// What std says of an error, without the number that stands behind the system's words, as ` (os error 28)`.
#[derive(Clone, Copy)]
pub struct Reason(pub io::Error);

impl fmt::Display for Reason {
    fn fmt<W: fmt::Write>(&self, f: &mut fmt::Formatter<W>) -> fmt::Result {
        let said = InlineText::<128>::of(self.0);
        match said.as_str().split_once(" (os error ") {
            Some((words, _)) => f.write_str(words),
            None => f.write_str(said.as_str()),
        }
    }
}

// One read: how many bytes, 0 at the end of the input, or why it failed.
pub fn read_some(rt: HostRuntime, room: &mut [u8]) -> io::Result<usize>
    ensures { ReadsAtMost result room.new }
{
    for _ in 0..u64::MAX {
        match rt.stdin().read(room) {
            Ok(got) => return Ok(got),
            Err(error) => {
                if !try_again(error) {
                    return Err(error);
                }
            }
        }
    }
    Err(io::Error::from(ErrorKind::Interrupted))
}

// Reads to the end of the input, or until the room is full, and answers how many bytes.
pub fn read_to_end(rt: HostRuntime, room: &mut [u8]) -> io::Result<usize>
    ensures { IfOk result (λ size. size ≤ length room.new) }
{
    let mut size = 0;
    while size < room.len() {
        let got = read_some(rt, &mut room[size..])?;
        if got == 0 {
            break;
        }
        size += got;
    }
    Ok(size)
}

// Writes the bytes. Where that fails, so many at their end were not written. A write that takes no byte would take none for ever.
pub fn write_all(rt: HostRuntime, bytes: &[u8]) -> Result<(), (usize, io::Error)>
    ensures { IfErr result (λ failure. failure.0 ≤ length bytes.now) }
{
    let mut left = bytes;
    for _ in 0..u64::MAX {
        if left.is_empty() {
            return Ok(());
        }
        let error = match rt.stdout().write(left) {
            Ok(0) => io::Error::from(ErrorKind::WriteZero),
            Ok(put) => {
                left = &left[put..];
                continue;
            }
            Err(error) => error,
        };
        if !try_again(error) {
            return Err((left.len(), error));
        }
    }
    Err((left.len(), io::Error::from(ErrorKind::Interrupted)))
}

// What was written to a file on another machine may be lost as late as here.
// std does not close standard output. So a file that it goes to is opened once more, and what was written to it brought to its device, which a close would tell of at the latest.
// A pipe or a terminal has no device behind it, and to open a pipe that nobody reads would wait. A system that knows no such call is no failure. An output that was closed from the start has nothing to lose that was not told of.
pub fn sync_output(rt: HostRuntime) -> io::Result<()>
    ensures { IfErr result (λ error. error_kind error ≢ ErrorKind.InvalidInput) }
{
    let is_file = fs::metadata(&rt, OUTPUT).is_ok_and(|found| found.is_file());
    if !is_file {
        return Ok(());
    }
    match OpenOptions::new().write(true).open(&rt, OUTPUT) {
        Ok(file) => match file.sync_all() {
            Err(error) if error.kind() != ErrorKind::InvalidInput => Err(error),
            _ => Ok(()),
        },
        Err(_) => Ok(()),
    }
}

// Whether the call that failed was only interrupted by a signal, or would have to wait. Then it is made again, after other programs had their turn.
fn try_again(error: io::Error) -> bool {
    if matches!(error.kind(), ErrorKind::Interrupted | ErrorKind::WouldBlock) {
        thread::yield_now();
        return true;
    }
    false
}
