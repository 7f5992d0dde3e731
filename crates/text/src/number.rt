// Whole numbers, levels and levels of a network as text. Each reader takes the whole slice of a field.
ghost use Rattle.std.specs.Prelude.{◌≡◌};
ghost use Rattle.text.specs.Number.{whole_of, level_of, thousandths_of};

use crate::inner::{decimal, digits};

// A whole number: one to seven digits, no needless leading zero. None is off its layout, here and below.
pub fn whole(s: &[u8]) -> Option<u32>
    ensures { result ≡ whole_of s.now }
{
    if s.is_empty() || 7 < s.len() {
        return None;
    }
    if 1 < s.len() && s[0] == b'0' {
        return None;
    }
    digits(s)
}

// A level: a number with two decimals; in hundredths.
pub fn level(s: &[u8]) -> Option<u32>
    ensures { result ≡ level_of s.now }
{
    decimal(s, 2)
}

// A level of a network: a number with three decimals, or with two; in thousandths.
pub fn thousandths(s: &[u8]) -> Option<u32>
    ensures { result ≡ thousandths_of s.now }
{
    match decimal(s, 3) {
        Some(n) => Some(n),
        None => Some(decimal(s, 2)? * 10),
    }
}
