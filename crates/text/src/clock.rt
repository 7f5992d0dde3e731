// Times of day as text, hh:mm:ss.
ghost use Rattle.std.specs.Prelude.{◌≡◌, ◌+◌, ◌≤◌, length};
ghost use Rattle.text.specs.Clock.{two_at, time_of};

use crate::inner::digits;

// Two digits at a place, for a number under `bound`.
fn two_at(s: &[u8], at: usize, bound: u32) -> Option<u32>
    requires { at + 2 ≤ length s.now }
    ensures { result ≡ two_at s.now at bound }
{
    let n = digits(&s[at..at + 2])?;
    if n < bound { Some(n) } else { None }
}

// A time of day as a second of the day.
pub fn time(s: &[u8]) -> Option<u32>
    ensures { result ≡ time_of s.now }
{
    if s.len() != 8 || s[2] != b':' || s[5] != b':' {
        return None;
    }
    let hour = two_at(s, 0, 24)?;
    let minute = two_at(s, 3, 60)?;
    let second = two_at(s, 6, 60)?;
    Some(hour * 3600 + minute * 60 + second)
}
