// All that comes, into one buffer.
ghost use Rattle.channel.specs.System.{Descriptor};
ghost use Rattle.channel.specs.System.Origin.{input, file};
ghost use Rattle.channel.specs.Input.{Fills, origin_of};

use crate::file::{Source, close_file, open_file};
use crate::inner::read_from;
use crate::input::Arrived;

// How a buffer was filled: all came, or a read failed, with so many bytes at its front; or no room is left in it.
#[derive(Clone, Copy)]
pub enum Filled {
    Complete(usize),
    FailedAfter(usize),
    Full,
}

// Standard input, in whatever pieces it comes.
pub fn read_all(rt: &HostRuntime, text: &mut [u8]) -> Filled
    ensures { Fills input result text.new }
{
    fill_from(rt, false, "", &Source::Input, text)
}

// A file. One that can't be opened can't be read.
pub fn read_file(rt: &HostRuntime, path: &str, text: &mut [u8]) -> Filled
    ensures { Fills (file path.now) result text.new }
{
    let source = open_file(rt, path);
    let read = fill_from(rt, true, path, &source, text);
    close_file(source);
    read
}

// A read that fails is never an end.
fn fill_from(rt: &HostRuntime, opened: bool, name: &str, source: &Source, text: &mut [u8]) -> Filled
    requires { Descriptor source.now (origin_of opened name.now) }
    ensures { Fills (origin_of opened name.now) result text.new }
{
    let mut taken = 0;
    let mut n = 0;
    // Kept: (d) a read says how many bytes came, so the next place is found in each turn.
    while n < text.len() {
        match read_from(rt, opened, name, source, &mut taken, &mut text[n..]) {
            Arrived::Bytes(k) => {
                n += k;
            }
            Arrived::End => {
                return Filled::Complete(n);
            }
            Arrived::Failed => {
                return Filled::FailedAfter(n);
            }
        }
    }
    Filled::Full
}
