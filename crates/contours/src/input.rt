// The contour levels among the program's arguments.
ghost use Rattle.std.specs.Prelude.{◌≡◌, ◌+◌, ◌^◌, ◌<◌};
ghost use Rattle.contours_steps.specs.Words.{Gathered};
ghost use Rattle.contours_steps.specs.InnerIntake.{ArgumentTaken};

use channel::words::{argument, argument_count};
use contours_steps::words::{Given, take_word};

// Reads the program's arguments once: the levels that they spell, in their order, and how many words there are.
pub(crate) fn gather(rt: &HostRuntime, asked: &mut [u32]) -> Given
    ensures { Gathered result asked.new }
{
    let count = argument_count(rt);
    let mut fit = true;
    for place in 0..count {
        fit &= word_at(rt, asked, place);
    }
    Given { count, fit }
}

// The argument at a place, which counts from 0.
fn word_at(rt: &HostRuntime, asked: &mut [u32], place: usize) -> bool
    requires { place + 1 < 2 ^ 64 }
    ensures { ArgumentTaken asked.old place result asked.new }
{
    let mut word = [0u8; 16];
    let n = argument(rt, place + 1, &mut word);
    take_word(asked, place, &word[..n])
}
