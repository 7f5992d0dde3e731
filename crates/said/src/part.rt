// The columns and the lines of a text.
ghost use Rattle.std.specs.Prelude.{length, ◌≡◌};
ghost use Rattle.std.specs.Iterator.{at_most};
ghost use Rattle.std.specs.Option.{IfSome};
ghost use Rattle.said.specs.Stretch.{IsFront, IsStretch};

use crate::inner::row_end;

// Column number k, counted from 0; an empty one where there is none.
pub fn column(s: &[u8], k: usize, d: u8) -> &[u8]
    ensures { IsStretch s.now result.now }
{
    s.split(|b| *b == d).nth(k).unwrap_or(&[])
}

// The lines of a text, each without its CRLF.
#[derive(Clone, Copy)]
pub struct Lines<'a> {
    rest: &'a [u8],
}

impl<'a> Lines<'a> {
    pub fn of(text: &'a [u8]) -> Lines<'a>
        ensures { result.rest.now ≡ text.now }
    {
        Lines { rest: text }
    }
}

impl<'a> Iterator for Lines<'a> {
    type Item = &'a [u8];

    ghost next_gives = { λ s r t. IfSome r (λ x. IsFront s.rest.now x.now t.rest.now) };

    ghost remaining = { λ s. at_most (length s.rest.now) };

    fn next(&mut self) -> Option<&'a [u8]> {
        if self.rest.is_empty() {
            return None;
        }
        let rest = self.rest;
        let end = row_end(rest, 0);
        self.rest = if rest.len() - end < 2 {
            &[]
        } else {
            &rest[end + 2..]
        };
        Some(&rest[..end])
    }
}

// Line number k, counted from 1; an empty one where there is none.
pub fn line(s: &[u8], k: u64) -> &[u8]
    ensures { IsStretch s.now result.now }
{
    Lines::of(s)
        .nth(k.saturating_sub(1) as usize)
        .unwrap_or(&[])
}

// What stands behind the first `count` lines.
pub fn behind(s: &[u8], count: usize) -> &[u8] {
    let mut lines = Lines::of(s);
    for _ in 0..count {
        lines.next();
    }
    lines.rest
}

// Of the `left` bytes from `at` on the first line, and whether all of it is there; `ended` says whether the bytes are
// the last. An empty one where they don't stand in the text.
pub fn first_line(s: &[u8], at: usize, left: usize, ended: bool) -> (&[u8], bool)
    ensures { IsStretch s.now result.0.now }
{
    let Some(part) = s.get(at..).and_then(|rest| rest.get(..left)) else {
        return (&[], ended);
    };
    let end = row_end(part, 0);
    (&part[..end], ended || end < left)
}

// The number of the last column, counted from 0.
pub fn last(s: &[u8], d: u8) -> usize {
    s.iter().filter(|b| **b == d).count()
}

// Whether a text has digits and nothing else.
pub fn is_digits(s: &[u8]) -> bool {
    !s.is_empty() && s.iter().all(|b| b.is_ascii_digit())
}
