// The program's arguments, behind its own name.
ghost use Rattle.channel.specs.System.{Arguments};
ghost use Rattle.channel.specs.Words.{Named};

use std::env::{Env, FillError};

// How many there are.
pub fn argument_count(rt: &HostRuntime) -> usize
    ensures { Arguments result }
{
    let mut none = [0u8; 1];
    for i in 1..usize::MAX {
        if let Err(FillError::NotPresent) = rt.arg(i, &mut none) {
            return i - 1;
        }
    }
    usize::MAX
}

// Puts argument number i, counted from 1, at the start of the room, and answers its length. One that is missing or
// longer than the room counts as empty.
pub fn argument(rt: &HostRuntime, i: usize, room: &mut [u8]) -> usize
    ensures { Named i result room.new }
{
    rt.arg(i, room).unwrap_or(0)
}
