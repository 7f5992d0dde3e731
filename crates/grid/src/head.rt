// The lines before the rows of a network file: five keys with whole numbers, and the no-data value where it is named.
ghost use Rattle.std.specs.Prelude.{◌≡◌, ◌≤◌, length};
ghost use Rattle.grid.specs.File.{number_after, is_number, is_spelling, names_well};
ghost use Rattle.grid.specs.InnerSteps.{LineAt, key_read, head_read, no_data_read};

use network::Frame;
use text::inner::line_end;
use text::number::{thousandths, whole};

// Where a line ends, and where the next one starts.
#[derive(Clone, Copy)]
pub struct Line {
    pub end: usize,
    pub next: usize,
}

// The number of the first line that is off the layout.
#[derive(Clone, Copy)]
pub struct Fault {
    pub line: usize,
}

// The line that starts at `at`.
pub(crate) fn line_at(s: &[u8], at: usize) -> Line
    requires { at ≤ length s.now }
    ensures { LineAt s.now at result }
{
    let end = line_end(s, at);
    let next = if end < s.len() { end + 2 } else { end };
    Line { end, next }
}

// The whole number after a key.
fn key_number(line: &[u8], key: &[u8]) -> Option<u32>
    ensures { result ≡ number_after key.now line.now }
{
    whole(line.strip_prefix(key)?)
}

// A header line: its number, and the place past the line.
#[derive(Clone, Copy)]
pub struct Keyed {
    pub number: u32,
    pub next: usize,
}

// Reads the header line that starts at `at`, which is line `line` of its text.
fn key_line(s: &[u8], at: usize, line: usize, key: &[u8]) -> Result<Keyed, Fault>
    requires { at ≤ length s.now }
    ensures { key_read s.now at line key.now result }
{
    let here = line_at(s, at);
    let end = here.end;
    let number = key_number(&s[at..end], key).ok_or(Fault { line })?;
    Ok(Keyed {
        number,
        next: here.next,
    })
}

// The five header lines: the frame, and the place past them.
#[derive(Clone, Copy)]
pub struct Head {
    pub frame: Frame,
    pub next: usize,
}

// Reads the five header lines.
pub(crate) fn read_head(s: &[u8]) -> Result<Head, Fault>
    ensures { head_read s.now result }
{
    let columns = key_line(s, 0, 1, b"ncols ")?;
    let rows = key_line(s, columns.next, 2, b"nrows ")?;
    let west = key_line(s, rows.next, 3, b"xllcenter ")?;
    let south = key_line(s, west.next, 4, b"yllcenter ")?;
    let spacing = key_line(s, south.next, 5, b"cellsize ")?;
    let frame = Frame {
        columns: columns.number,
        rows: rows.number,
        spacing: spacing.number,
        west: west.number,
        south: south.number,
    };
    Ok(Head {
        frame,
        next: spacing.next,
    })
}

// Whether a text without its minus is a whole number or a level.
fn is_number(s: &[u8]) -> bool
    ensures { result ≡ is_number s.now }
{
    whole(s).is_some() || thousandths(s).is_some()
}

// Whether a text may stand for no data.
fn is_spelling(s: &[u8]) -> bool
    ensures { result ≡ is_spelling s.now }
{
    if let [b'-', rest @ ..] = s {
        return is_number(rest);
    }
    is_number(s)
}

// The bytes of the word NODATA_value, past which a space stands, and where the value stands past both.
const WORD: usize = 12;

const SPELLED: usize = 13;

// Whether a line that begins with that word is on the layout.
fn names_well(line: &[u8]) -> bool
    ensures { result ≡ names_well line.now }
{
    SPELLED <= line.len() && line[WORD] == b' ' && is_spelling(&line[SPELLED..])
}

// A line that names the no-data value: where it is spelled, and the place past the line.
#[derive(Clone, Copy)]
pub struct Named {
    pub start: usize,
    pub end: usize,
    pub next: usize,
}

// Reads the line at `at`, the sixth, as one that may name the no-data value.
pub(crate) fn no_data(s: &[u8], at: usize) -> Result<Option<Named>, Fault>
    requires { at ≤ length s.now }
    ensures { no_data_read s.now at result }
{
    let line = line_at(s, at);
    let end = line.end;
    if !s[at..end].starts_with(b"NODATA_value") {
        return Ok(None);
    }
    if !names_well(&s[at..end]) {
        return Err(Fault { line: 6 });
    }
    Ok(Some(Named {
        start: at + SPELLED,
        end,
        next: line.next,
    }))
}
