// One read, and one write.
ghost use Rattle.std.specs.Prelude.{◌≡◌, ◌+◌, ◌^◌, ◌<◌, length, IsErr};
ghost use Rattle.std.specs.Io.{ReadsAtMost};
ghost use Rattle.channel.specs.declared.file.Source.TheVariants.{Absent};
ghost use Rattle.channel.specs.System.{Descriptor};
ghost use Rattle.channel.specs.Input.{Reads, origin_of};
ghost use Rattle.channel.specs.Output.{Writes};

use crate::file::Source;
use crate::input::Arrived;
use std::io::{Error, ErrorKind, Read, Result};

// The descriptor of standard output.
const STDOUT_FILENO: i32 = 1;

// Reads behind the `taken` bytes that came before, into the front of the room. Without room it fails: then nothing can
// come, and that is no end, nor a read that failed. Behind an end or a failure the count is used up, and a further read
// fails without being made. The source is the file that was opened under the name, or else standard input.
// Kept: (a) tools/check-channel holds each call that reads to the flag `opened` and the name beside it, by these words.
pub fn read_from(
    rt: &HostRuntime,
    opened: bool,
    name: &str,
    source: &Source,
    taken: &mut u64,
    room: &mut [u8],
) -> Arrived
    requires { Descriptor source.now (origin_of opened name.now) }
    ensures { Reads (origin_of opened name.now) taken.old result taken.new
        room.new }
{
    if room.is_empty() || u64::MAX - *taken <= room.len() as u64 {
        *taken = u64::MAX;
        return Arrived::Failed;
    }
    match read_once(rt, source, room) {
        Ok(0) => {
            *taken = u64::MAX;
            Arrived::End
        }
        Ok(n) => {
            *taken += n as u64;
            Arrived::Bytes(n)
        }
        Err(_) => {
            *taken = u64::MAX;
            Arrived::Failed
        }
    }
}

// One call of the system that reads. Of a file that couldn't be opened no read is taken.
fn read_once(rt: &HostRuntime, source: &Source, room: &mut [u8]) -> Result<usize>
    ensures within { ReadsAtMost result room.new }
    ensures absent { source.now ≡ Absent → IsErr result }
{
    match source {
        Source::Input => rt.stdin().read(room),
        Source::Opened(opened) => {
            let mut file = opened;
            file.read(room)
        }
        Source::Absent => Err(Error::from(ErrorKind::NotFound)),
    }
}

// Hands a part to standard output, behind the `sent` bytes that went before, and answers whether all of it was taken.
pub fn write(sent: &mut usize, part: &[u8]) -> bool
    requires { sent.old + length part.now < 2 ^ 64 }
    ensures { Writes sent.old part.now result sent.new }
{
    *sent += part.len();
    io::write_all(STDOUT_FILENO, part)
}
