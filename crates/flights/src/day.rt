// Dates as text, as 2026-03-31.
ghost use Rattle.std.specs.Prelude.{◌≡◌, ◌+◌, ◌≤◌, length};
ghost use Rattle.flights.specs.Date.{digits_at, date_of};

use text::inner::digits;

// So many digits at a place.
fn digits_at(s: &[u8], at: usize, count: usize) -> Option<u32>
    requires { (at + count ≤ length s.now) × (count ≤ 7) }
    ensures { result ≡ digits_at s.now at count }
{
    digits(&s[at..at + count])
}

// A date as one number, whether it exists or not.
pub(crate) fn date(s: &[u8]) -> Option<u32>
    ensures { result ≡ date_of s.now }
{
    if s.len() != 10 || s[4] != b'-' || s[7] != b'-' {
        return None;
    }
    let year = digits_at(s, 0, 4)?;
    let month = digits_at(s, 5, 2)?;
    let day = digits_at(s, 8, 2)?;
    Some(year * 10000 + month * 100 + day)
}
