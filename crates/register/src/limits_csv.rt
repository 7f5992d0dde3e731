// limits.csv as a whole text: its header, one line of days and limits, and nothing more.
ghost use Rattle.std.specs.Prelude.{◌≡◌, ◌+◌, ◌≤◌, length, drop};
ghost use Rattle.movement.specs.Limits.{max_points};
ghost use Rattle.text.specs.Line.{first_line, lines_of};
ghost use Rattle.register.specs.LimitsFile.{judged_limits, second_limits, limits_of, limits_told};

use crate::cell::{Table, read_cells};
use crate::column::MAX_COLUMNS;
use crate::header::limits_points;
use crate::row::eight_from;
use movement::limits::{MAX_DAYS, MAX_LIMIT, MAX_POINTS};
use refusal::{Refusal, all_within};
use text::inner::line_end;

// What limits.csv says: points, days and a limit for each point, zero past the points.
#[derive(Clone, Copy)]
pub struct Limits {
    pub points: u32,
    pub days: u32,
    pub limits: [u32; MAX_POINTS],
}

// Why limits.csv is refused, and at which of its lines.
#[derive(Clone, Copy, PartialEq, Eq)]
pub struct LimitsRefused {
    pub why: Refusal,
    pub line: u32,
}

// Days and limits that are on their layout: 11, then 15.
fn judged_limits(values: [u32; MAX_COLUMNS], points: u32) -> Result<Limits, LimitsRefused>
    ensures { limits_told result ≡ judged_limits points values }
{
    let days = values[0];
    if days == 0 || MAX_DAYS < days {
        return Err(LimitsRefused {
            why: Refusal::WrongDays,
            line: 2,
        });
    }
    let limits = eight_from(values, 1);
    if !all_within(&limits, MAX_LIMIT) {
        return Err(LimitsRefused {
            why: Refusal::WrongLevelAsked,
            line: 2,
        });
    }
    Ok(Limits {
        points,
        days,
        limits,
    })
}

// The second line, which starts at `start`, and that no third one follows.
fn second_limits(s: &[u8], start: usize, points: u32) -> Result<Limits, LimitsRefused>
    requires { (start ≤ length s.now) × (1 ≤ points) × (points ≤ max_points) }
    ensures { limits_told result ≡ second_limits points (first_line (drop start s.now))
        (1 + length (lines_of (drop start s.now))) }
{
    let end = line_end(s, start);
    let Some(line) = read_cells(&s[start..end], Table::LimitsFile, 1 + points as usize) else {
        return Err(LimitsRefused {
            why: Refusal::OffLayout,
            line: 2,
        });
    };
    if 2 < s.len() - end {
        return Err(LimitsRefused {
            why: Refusal::OffLayout,
            line: 3,
        });
    }
    judged_limits(line.values, points)
}

// Reads limits.csv: 16 with its line, then 11 and 15 at line 2.
pub fn read_limits(s: &[u8]) -> Result<Limits, LimitsRefused>
    ensures { limits_told result ≡ limits_of s.now }
{
    let end = line_end(s, 0);
    let Some(points) = limits_points(&s[..end]) else {
        return Err(LimitsRefused {
            why: Refusal::OffLayout,
            line: 1,
        });
    };
    if s.len() - end < 2 {
        return Err(LimitsRefused {
            why: Refusal::OffLayout,
            line: 2,
        });
    }
    second_limits(s, end + 2, points)
}
