// The numbers of a journal: which call is at the front, where each call ends, and how many calls there are.
ghost use Rattle.std.specs.Prelude.{◌≡◌, true, length, slice_index};
ghost use Rattle.journal.specs.InnerKind.{kind_numbered};
ghost use Rattle.journal.specs.Journal.{width_of, laid_out, calls_of};

// The kinds of calls.
#[derive(Clone, Copy, PartialEq, Eq)]
pub(crate) enum Kind {
    Enter,
    Supply,
    TakeBack,
    Withdraw,
}

// The number at an index, 0 past the end.
fn number_at(rest: &[u32], i: usize) -> u32
    ensures { result ≡ slice_index rest.now i }
{
    rest.get(i).copied().unwrap_or(0)
}

// The kind of the call at the front, where its first number is that of one.
pub(crate) fn kind_at(rest: &[u32]) -> Option<Kind>
    ensures { result ≡ kind_numbered (slice_index rest.now 0) }
{
    match number_at(rest, 0) {
        1 => Some(Kind::Enter),
        2 => Some(Kind::Supply),
        3 => Some(Kind::TakeBack),
        4 => Some(Kind::Withdraw),
        _ => None,
    }
}

// How many numbers the call at the front has.
pub(crate) fn width_of(rest: &[u32]) -> usize
    ensures { result ≡ width_of rest.now }
{
    match kind_at(rest) {
        Some(Kind::Enter) => 7 + number_at(rest, 6) as usize,
        Some(Kind::Supply) => 3 + number_at(rest, 2) as usize,
        Some(Kind::TakeBack | Kind::Withdraw) => 2,
        None => 0,
    }
}

// Whether every call is one of the four, with all its numbers there.
pub(crate) fn is_laid_out(journal: &[u32]) -> bool
    ensures { result ≡ laid_out journal.now }
{
    let mut rest = journal;
    // Kept: (d) how long a call is is read in it, so the rest is found in each turn.
    while !rest.is_empty() {
        let width = width_of(rest);
        if width < 1 || rest.len() < width {
            return false;
        }
        rest = &rest[width..];
    }
    true
}

// How many calls a journal on the layout has.
pub(crate) fn count_calls(journal: &[u32]) -> usize
    requires { laid_out journal.now ≡ true }
    ensures { result ≡ length (calls_of journal.now) }
{
    let mut rest = journal;
    let mut count = 0;
    // Kept: (d) how long a call is is read in it, so the rest is found in each turn.
    while !rest.is_empty() {
        rest = &rest[width_of(rest)..];
        count += 1;
    }
    count
}
