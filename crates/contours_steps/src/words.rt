// The contour levels among a program's arguments.
ghost use Rattle.std.specs.Prelude.{◌≡◌, if◌then◌else◌};
ghost use Rattle.refusal.specs.Refusal.{told};
ghost use Rattle.contours_steps.specs.Words.{is_contour, word_level, given_refusal, WordTaken};

use network::limits::{LEAST_CONTOUR, MAX_CONTOUR};
use refusal::Refusal;

// The most levels that there is room for.
pub const MAX_CONTOUR_LEVELS: usize = 15_000;

// The contour level of a word in thousandths, where it is one and in its range.
pub fn contour_of(word: &[u8]) -> Option<u32>
    ensures { result ≡ (if is_contour word.now then Some (word_level word.now) else None) }
{
    let v = text::number::thousandths(word)?;
    if (LEAST_CONTOUR..=MAX_CONTOUR).contains(&v) {
        return Some(v);
    }
    None
}

// The words of a program: how many there are, and whether every one is a contour level.
// Kept: (d) two answers, of which neither says whether the other holds.
#[derive(Clone, Copy)]
pub struct Given {
    pub count: usize,
    pub fit: bool,
}

// One word more: its level goes to its place, where there is room. It answers whether the word is a contour level.
pub fn take_word(asked: &mut [u32], place: usize, word: &[u8]) -> bool
    ensures { WordTaken asked.old place word.now result asked.new }
{
    let Some(v) = contour_of(word) else {
        return false;
    };
    if place < asked.len() {
        asked[place] = v;
    }
    true
}

// Refuses no words at all or one that is no contour level, and then more than there is room for.
pub fn words_refusal(given: Given) -> Result<(), Refusal>
    ensures { told result ≡ given_refusal given }
{
    if given.count < 1 || !given.fit {
        return Err(Refusal::WrongLevelAsked);
    }
    if MAX_CONTOUR_LEVELS < given.count {
        return Err(Refusal::TooLittleRoom);
    }
    Ok(())
}
