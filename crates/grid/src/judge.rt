// The whole of a network text judged before anything is stored: the first line off the layout, or whether its rows fit
// and its levels are sound.
ghost use Rattle.std.specs.Prelude.{◌≡◌, ◌≤◌, length};
ghost use Rattle.grid.specs.InnerSteps.{value_read, row_of, rows_read, body_read, file_read};

use crate::head::{Fault, line_at, no_data, read_head};
use network::Frame;
use network::limits::MAX_NETWORK_LEVEL;
use text::inner::field_end;
use text::number::thousandths;

// Whether a value is sound, which no data and too high a level are not; it may be neither no data nor a level.
fn judge_value(s: &[u8], nodata: &[u8]) -> Option<bool>
    ensures { result ≡ value_read nodata.now s.now }
{
    if s == nodata {
        return Some(false);
    }
    Some(thousandths(s)? <= MAX_NETWORK_LEVEL)
}

// How many values a row has, and whether all of them are sound.
// Kept: (d) two answers, of which neither says whether the other holds.
#[derive(Clone, Copy)]
pub struct Row {
    pub values: usize,
    pub sound: bool,
}

// Judges the values of a row, which may be off the layout.
fn judge_row(s: &[u8], nodata: &[u8]) -> Option<Row>
    ensures { result ≡ row_of nodata.now s.now }
{
    let mut at = 0;
    let mut values = 0;
    let mut sound = true;
    loop {
        let end = field_end(s, at, b' ');
        let fine = judge_value(&s[at..end], nodata)?;
        sound &= fine;
        values += 1;
        if s.len() <= end {
            return Some(Row { values, sound });
        }
        at = end + 1;
    }
}

// What a text on its layout is judged to be: its frame, the place of its rows, whether they fit the frame and whether
// all values are sound.
// Kept: (d) three answers, of which none says whether another holds.
#[derive(Clone, Copy)]
pub struct File {
    pub frame: Frame,
    pub rows: usize,
    pub fits: bool,
    pub sound: bool,
}

// Judges the rows from `from` on, the first of which is line `first`.
fn judge_rows(
    s: &[u8],
    from: usize,
    nodata: &[u8],
    frame: Frame,
    first: usize,
) -> Result<File, Fault>
    requires { (from ≤ length s.now) × (1 ≤ first) × (first ≤ 7) }
    ensures { rows_read s.now from nodata.now frame first result }
{
    let columns = frame.columns as usize;
    let rows = frame.rows as usize;
    let mut at = from;
    let mut count = 0;
    let mut fits = true;
    let mut sound = true;
    // Kept: (d) where the next row begins is found with the end of this one.
    while at < s.len() {
        let line = line_at(s, at);
        let end = line.end;
        let Some(row) = judge_row(&s[at..end], nodata) else {
            return Err(Fault {
                line: first + count,
            });
        };
        fits &= row.values == columns;
        sound &= row.sound;
        count += 1;
        at = line.next;
    }
    fits &= count == rows;
    Ok(File {
        frame,
        rows: from,
        fits,
        sound,
    })
}

// Judges what follows the five header lines, from `at` on.
fn judge_body(s: &[u8], at: usize, frame: Frame) -> Result<File, Fault>
    requires { at ≤ length s.now }
    ensures { body_read s.now at frame result }
{
    match no_data(s, at)? {
        Some(named) => {
            let start = named.start;
            let end = named.end;
            judge_rows(s, named.next, &s[start..end], frame, 7)
        }
        None => judge_rows(s, at, b"-9999", frame, 6),
    }
}

// Judges a whole text.
pub(crate) fn judge(s: &[u8]) -> Result<File, Fault>
    ensures { file_read s.now result }
{
    let head = read_head(s)?;
    judge_body(s, head.next, head.frame)
}
