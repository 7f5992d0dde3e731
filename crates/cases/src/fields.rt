// The fields of a line: words, numbers with a space or an LF between them, and texts, in which `/` stands for CRLF, `^`
// for a CR and `~` for an LF.
ghost use Rattle.std.specs.Prelude.{◌≤◌, length};
ghost use Rattle.io.specs.Counts.{IsPrefixLen};

// The first letter of a line.
pub fn letter(line: &[u8]) -> u8 {
    line.first().copied().unwrap_or(0)
}

// Field k of a line and what follows it.
pub(crate) fn from_field(line: &[u8], k: usize) -> &[u8] {
    line.splitn(k.saturating_add(1), |c| *c == b'|')
        .nth(k)
        .unwrap_or(&[])
}

// Field k of a line.
pub(crate) fn field(line: &[u8], k: usize) -> &[u8] {
    from_field(line, k)
        .split(|c| *c == b'|' || *c == b'\n')
        .next()
        .unwrap_or(&[])
}

// A value with one digit more; past 18 digits it stays.
fn grown(value: u64, digit: u8) -> u64 {
    if value < 1000000000000000000 {
        value * 10 + digit as u64
    } else {
        value
    }
}

// The number that a text begins with, as one of 32 bits.
fn value_of(t: &[u8]) -> u32 {
    let mut value: u64 = 0;
    for c in t {
        if !c.is_ascii_digit() {
            break;
        }
        value = grown(value, c.wrapping_sub(b'0'));
    }
    (value % 4294967296) as u32
}

// The number of field k, as one of 32 bits.
pub fn number(line: &[u8], k: usize) -> u32 {
    value_of(field(line, k))
}

// A number as one of 64 bits, for an answer to be told.
pub fn wide(value: u32) -> u64 {
    value as u64
}

// The number of field k, as a count or an index.
pub fn place(line: &[u8], k: usize) -> usize {
    number(line, k) as usize
}

// Puts the numbers of field k at the front of `out`, as far as it goes, and answers how many there are.
pub fn numbers(line: &[u8], k: usize, out: &mut [u32]) -> usize
    ensures { IsPrefixLen result out.new }
{
    let mut n = 0;
    for digits in field(line, k).split(|c| !c.is_ascii_digit()) {
        if digits.is_empty() || n == out.len() {
            return n;
        }
        out[n] = value_of(digits);
        n += 1;
    }
    n
}

// One byte, where there is room.
fn put(out: &mut [u8], n: usize, c: u8) -> usize
    requires { n ≤ length out.old }
    ensures { result ≤ length out.old }
{
    if n < out.len() {
        out[n] = c;
        n + 1
    } else {
        n
    }
}

// What a byte of a text stands for.
fn put_coded(out: &mut [u8], n: usize, c: u8) -> usize
    requires { n ≤ length out.old }
    ensures { result ≤ length out.old }
{
    match c {
        b'/' => {
            let m = put(out, n, b'\r');
            put(out, m, b'\n')
        }
        b'^' => put(out, n, b'\r'),
        b'~' => put(out, n, b'\n'),
        _ => put(out, n, c),
    }
}

// Puts the text of field k at the front of `out`, as far as it goes, and answers how many bytes it has.
pub fn text(line: &[u8], k: usize, out: &mut [u8]) -> usize
    ensures { IsPrefixLen result out.new }
{
    let mut n = 0;
    for c in field(line, k) {
        n = put_coded(out, n, *c);
    }
    n
}
