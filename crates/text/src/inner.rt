// Parts that ask something of their caller: a run of digits, a number with decimals, a letter among a few, where a
// field or a line ends, and writers into a buffer that has room. A writer writes from a place on and answers the place
// past its text.
ghost use Rattle.std.specs.Prelude.{◌≡◌, ◌+◌, ◌*◌, ◌^◌, ◌<◌, ◌≤◌, ◌==◌, [], ◌∷◌, length, drop};
ghost use Rattle.std.specs.Prelude.{position};
ghost use Rattle.text.specs.Number.{digits_of, max_decimals, decimal_of, show_number, show_whole};
ghost use Rattle.text.specs.Number.{show_digits, show_decimal, show_level, show_thousandths};
ghost use Rattle.text.specs.Letter.{letter_of};
ghost use Rattle.text.specs.Field.{up_to};
ghost use Rattle.text.specs.Line.{end_at, first_line};
ghost use Rattle.text.specs.Spelled.{byte, crlf};
ghost use Rattle.text.specs.Sheet.{refused_text};
ghost use Rattle.text.specs.InnerWithin.{longest_number, longest_field, longest_level, longest_thousandths};
ghost use Rattle.text.specs.InnerWithin.{longest_refused, WroteWithin};
ghost use Rattle.room.specs.Room.{Wrote};

use crate::number::whole;

// The value of a run of at most seven digits.
pub fn digits(s: &[u8]) -> Option<u32>
    requires { length s.now ≤ 7 }
    ensures { result ≡ digits_of 0 s.now }
{
    let mut value: u32 = 0;
    for c in s {
        if *c < b'0' || b'9' < *c {
            return None;
        }
        value = value * 10 + (*c - b'0') as u32;
    }
    Some(value)
}

// 10 to the d.
fn power(d: usize) -> u32
    requires { d ≤ max_decimals }
    ensures { result ≡ 10 ^ d }
{
    10u32.pow(d as u32)
}

// A number with d decimals: one to three digits, a point and d digits, no needless leading zero; in parts of its unit.
pub fn decimal(s: &[u8], d: usize) -> Option<u32>
    requires { d ≤ max_decimals }
    ensures { result ≡ decimal_of d s.now }
{
    let n = s.len();
    if n < d + 2 || d + 4 < n {
        return None;
    }
    let point = n - (d + 1);
    if s[point] != b'.' {
        return None;
    }
    let units = whole(&s[..point])?;
    let parts = digits(&s[point + 1..])?;
    Some(units * power(d) + parts)
}

// The first place of a byte.
fn place(s: &[u8], b: u8) -> Option<usize>
    ensures { result ≡ position (λ c. c == b) s.now }
{
    s.iter().position(|c| *c == b)
}

// The place of a letter among a few.
pub fn letter(t: &[u8], letters: &[u8]) -> Option<u32>
    requires { length letters.now ≤ 3 }
    ensures { result ≡ letter_of letters.now t.now }
{
    if t.len() != 1 {
        return None;
    }
    Some(place(letters, t[0])? as u32)
}

// The place of the next parting byte `d` at or after `at`, or the text's length.
pub fn field_end(s: &[u8], at: usize, d: u8) -> usize
    requires { at ≤ length s.now }
    ensures { result ≡ at + length (up_to d (drop at s.now)) }
{
    match place(&s[at..], d) {
        Some(length) => at + length,
        None => s.len(),
    }
}

// The place of the next CRLF at or after `at`, or the text's length.
pub fn line_end(s: &[u8], at: usize) -> usize
    requires { at ≤ length s.now }
    ensures { result ≡ at + length (first_line (drop at s.now)) }
{
    for i in at..s.len() {
        if ends_line(s, i) {
            return i;
        }
    }
    s.len()
}

// Whether a CRLF stands at `at`.
fn ends_line(s: &[u8], at: usize) -> bool
    requires { at < length s.now }
    ensures { result ≡ end_at s.now at }
{
    s[at..].starts_with(b"\r\n")
}

// One byte.
pub fn put_byte(out: &mut [u8], at: usize, b: u8) -> usize
    requires { at < length out.old }
    ensures { Wrote out.old at (b ∷ []) out.new result }
{
    out[at] = b;
    at + 1
}

// A text as it stands.
pub fn put_text(out: &mut [u8], at: usize, text: &[u8]) -> usize
    requires { at + length text.now ≤ length out.old }
    ensures { Wrote out.old at text.now out.new result }
{
    out[at..at + text.len()].copy_from_slice(text);
    at + text.len()
}

// A number: the digits of its tenth, if there are any, then its last digit.
pub fn put_number(out: &mut [u8], at: usize, n: u64) -> usize
    requires { at + length (show_number n) ≤ length out.old }
    ensures { Wrote out.old at (show_number n) out.new result }
{
    let digit = b'0' + (n % 10) as u8;
    if n < 10 {
        return put_byte(out, at, digit);
    }
    let next = put_number(out, at, n / 10);
    put_byte(out, next, digit)
}

// A whole number of a file, which has at most seven digits.
pub fn put_whole(out: &mut [u8], at: usize, n: u32) -> usize
    requires { (n < 10000000) × (at + length (show_whole n) ≤ length out.old) }
    ensures { Wrote out.old at (show_whole n) out.new result }
{
    put_number(out, at, n as u64)
}

// d digits.
pub fn put_digits(out: &mut [u8], at: usize, n: u32, d: usize) -> usize
    requires { (d ≤ max_decimals) × (n < 10 ^ d) × (at + d ≤ length out.old) }
    ensures { Wrote out.old at (show_digits d n) out.new result }
{
    let mut left = n;
    let mut next = at;
    for k in (0..d).rev() {
        let parts = power(k);
        next = put_byte(out, next, b'0' + (left / parts) as u8);
        left = left % parts;
    }
    next
}

// A number with d decimals: its units, a point and d digits.
pub fn put_decimal(out: &mut [u8], at: usize, n: u32, d: usize) -> usize
    requires { (d ≤ max_decimals) × (n < 10000000 * 10 ^ d)
        × (at + length (show_decimal d n) ≤ length out.old) }
    ensures { Wrote out.old at (show_decimal d n) out.new result }
{
    let parts = power(d);
    let point = put_whole(out, at, n / parts);
    let next = put_byte(out, point, b'.');
    put_digits(out, next, n % parts, d)
}

// A level, which has two decimals.
pub fn put_level(out: &mut [u8], at: usize, n: u32) -> usize
    requires { (n < 100000) × (at + length (show_level n) ≤ length out.old) }
    ensures { Wrote out.old at (show_level n) out.new result }
{
    put_decimal(out, at, n, 2)
}

// A level of a network, which has three.
pub fn put_thousandths(out: &mut [u8], at: usize, n: u32) -> usize
    requires { (n < 1000000) × (at + length (show_thousandths n) ≤ length out.old) }
    ensures { Wrote out.old at (show_thousandths n) out.new result }
{
    put_decimal(out, at, n, 3)
}

// A number, in room for the longest; and with a comma before it.
pub fn put_any_number(out: &mut [u8], at: usize, n: u64) -> usize
    requires { at + longest_number ≤ length out.old }
    ensures { WroteWithin longest_number out.old at (show_number n) out.new result }
{
    put_number(out, at, n)
}

pub fn put_field(out: &mut [u8], at: usize, n: u64) -> usize
    requires { at + longest_field ≤ length out.old }
    ensures { WroteWithin longest_field out.old at (byte "," ∷ show_number n)
        out.new result }
{
    let next = put_byte(out, at, b',');
    put_any_number(out, next, n)
}

// A comma, and a text as it stands.
pub fn put_word(out: &mut [u8], at: usize, text: &[u8]) -> usize
    requires { at + 1 + length text.now ≤ length out.old }
    ensures { Wrote out.old at (byte "," ∷ text.now) out.new result }
{
    let next = put_byte(out, at, b',');
    put_text(out, next, text)
}

// A level, in room for the longest; and one of a network.
pub fn put_any_level(out: &mut [u8], at: usize, n: u32) -> usize
    requires { (n < 100000) × (at + longest_level ≤ length out.old) }
    ensures { WroteWithin longest_level out.old at (show_level n) out.new result }
{
    put_level(out, at, n)
}

pub fn put_any_thousandths(out: &mut [u8], at: usize, n: u32) -> usize
    requires { (n < 1000000) × (at + longest_thousandths ≤ length out.old) }
    ensures { WroteWithin longest_thousandths out.old at (show_thousandths n)
        out.new result }
{
    put_thousandths(out, at, n)
}

// The end of a line.
pub fn put_end(out: &mut [u8], at: usize) -> usize
    requires { at + 2 ≤ length out.old }
    ensures { WroteWithin 2 out.old at crlf out.new result }
{
    let next = put_byte(out, at, b'\r');
    put_byte(out, next, b'\n')
}

// A refusal's one line, at the front.
pub fn put_refused(out: &mut [u8], number: u32, line: u64) -> usize
    requires { longest_refused ≤ length out.old }
    ensures { WroteWithin longest_refused out.old 0 (refused_text number line)
        out.new result }
{
    let word = put_text(out, 0, b"refused");
    let first = put_field(out, word, number as u64);
    let second = put_field(out, first, line);
    put_end(out, second)
}
