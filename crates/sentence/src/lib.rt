// The sentence for each refusal number: RULES, "Refusal numbers". The programs, the library and Python take it from
// here.
#![tactic(auto)]

pub mod inner;

ghost use Rattle.std.specs.Prelude.{◌≤◌, [], ◌∷◌, length};
ghost use Rattle.refusal.specs.Refusal.{told};
ghost use Rattle.room.specs.Room.{Wrote, WritesTwo};
ghost use Rattle.sentence.specs.Sentence.{max_sentence, sentence_of};

use refusal::Refusal;

// Room for any sentence.
pub const MAX_SENTENCE: usize = 120;

// Puts the sentence to the front of a buffer that has room for any, and answers its size.
pub fn put_sentence(out: &mut [u8; MAX_SENTENCE], number: u32) -> usize
    ensures { Wrote out.old 0 (sentence_of number) out.new result × (result ≤ max_sentence) }
{
    inner::put_any(out, number)
}

// The sentence in lent room, and its size; 14 where there is too little of either.
pub fn write_sentence(number: u32, text: &mut [u8], size: &mut [u32]) -> Result<(), Refusal>
    ensures { WritesTwo 0 (sentence_of number) (length (sentence_of number) ∷ [])
        text.old size.old (told result) text.new size.new }
{
    let mut room = [0u8; MAX_SENTENCE];
    let n = put_sentence(&mut room, number);
    if text.len() < n || size.is_empty() {
        return Err(Refusal::TooLittleRoom);
    }
    text[..n].copy_from_slice(&room[..n]);
    size[0] = n as u32;
    Ok(())
}
