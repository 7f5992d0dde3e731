// One read of standard input.
ghost use Rattle.channel.specs.System.Origin.{input};
ghost use Rattle.channel.specs.Input.{Reads};

use crate::file::Source;
use crate::inner::read_from;

// What a read answered: so many bytes, none is left to come, or it failed.
#[derive(Clone, Copy)]
pub enum Arrived {
    Bytes(usize),
    End,
    Failed,
}

// Reads behind the `taken` bytes that came before, into the front of the room.
pub fn read_input(rt: &HostRuntime, taken: &mut u64, room: &mut [u8]) -> Arrived
    ensures { Reads input taken.old result taken.new room.new }
{
    read_from(rt, false, "", &Source::Input, taken, room)
}
