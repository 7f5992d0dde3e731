// Runways, airports and type designators as text.
ghost use Rattle.std.specs.Prelude.{◌≡◌};
ghost use Rattle.flights.specs.Name.{in_name, name_of};

// Whether a byte is a digit or a capital letter.
fn in_name(c: u8) -> bool
    ensures { result ≡ in_name c }
{
    c.is_ascii_digit() || c.is_ascii_uppercase()
}

// A name of one to four such bytes, as one number.
pub(crate) fn name(s: &[u8]) -> Option<u32>
    ensures { result ≡ name_of s.now }
{
    if s.is_empty() || 4 < s.len() {
        return None;
    }
    let mut value: u32 = 0;
    for c in s {
        if !in_name(*c) {
            return None;
        }
        value = value * 256 + u32::from(*c);
    }
    Some(value)
}
