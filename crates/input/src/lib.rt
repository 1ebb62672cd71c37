// Standard input, read to its end.
#![tactic(auto)]

ghost use Rattle.std.specs.Prelude.{◌≡◌, ◌≤◌, length};
ghost use Rattle.std.specs.Result.{is_ok};
ghost use Rattle.input.specs.Input.{ReadAt, ReadTo};

use std::cmp::min;
use std::io;
use std::io::Read;

// How many bytes stand at the front of the buffer, and what the last read answered: 0 at the end of the input, an error if it failed, else how many
// bytes it filled the buffer up with. It is 0 too if there was no read. Both are promised
// after a failure as well, so they stand beside each other.
#[derive(Clone, Copy)]
pub struct Input {
    pub count: usize,
    pub last: io::Result<usize>,
}

impl Input {
    // Whether every read was answered: one that fails is the last.
    pub fn complete(self) -> bool
        ensures { result ≡ is_ok self.last }
    {
        self.last.is_ok()
    }
}

// One read to an offset, by way of a chunk: `read` leaves open what it does to the bytes behind those that it read.
fn read_at<R: Read>(reader: &mut R, buffer: &mut [u8], at: usize) -> io::Result<usize>
    requires { at ≤ length buffer.old }
    ensures { ReadAt buffer.old at result buffer.new }
{
    let mut chunk = [0u8; 4096];
    let room = min(buffer.len() - at, chunk.len());
    let more = reader.read(&mut chunk[..room])?;
    endian::put_bytes(buffer, at, &chunk[..more]);
    Ok(more)
}

// Reads until the input ends, a read fails or the buffer is full (`read_to_end` needs a heap). Which bytes it read, no contract can say: the logic
// has no record of what a call of the system gave.
pub fn read_input<R: Read>(reader: &mut R, buffer: &mut [u8]) -> Input
    ensures { ReadTo buffer.old buffer.new result.count result.last }
{
    let mut count = 0;
    let mut last = Ok(0);
    while count < buffer.len() {
        last = read_at(reader, buffer, count);
        match last {
            Ok(0) | Err(_) => break,
            Ok(more) => count += more,
        }
    }
    Input { count, last }
}
