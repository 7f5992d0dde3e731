// The sentence for a refusal's number.
ghost use Rattle.std.specs.Prelude.{◌∷◌, [], length};
ghost use Rattle.room.specs.Room.{WritesTwo};
ghost use Rattle.sentence.specs.Sentence.{sentence_of};

// The sentence in English, without a line end, and its size; no bytes for a number that is no refusal.
#[unsafe(no_mangle)]
pub extern "C" fn okubinrafo_sentence(refusal: u32, text: &mut [u8], size: &mut [u32]) -> u32
    ensures { WritesTwo 0 (sentence_of refusal) (length (sentence_of refusal) ∷ [])
        text.old size.old result text.new size.new }
{
    refusal::told(sentence::write_sentence(refusal, text, size))
}
