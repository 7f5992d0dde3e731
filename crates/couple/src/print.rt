// The text on standard output. The sheet is put together in a buffer, part by part, and each part is handed to one
// write, where it is due: behind the part before it.
ghost use Rattle.std.specs.Prelude.{◌≡◌, ◌≤◌, length};
ghost use Rattle.channel.specs.Due.{Due, Sends};
ghost use Rattle.channel.specs.Run.{Run};
ghost use Rattle.text.specs.Sheet.{refused_text};
ghost use Rattle.coupling_rules.specs.Limits.{max_flights};
ghost use Rattle.couple_steps.specs.Sheet.{sheet_text};
ghost use Rattle.couple_steps.specs.Written.{MayWrite};
ghost use Rattle.couple_steps.specs.InnerSheet.{longest_flight};

use couple_steps::inner::put::put_lines;
use text::inner::put_refused;

// The one write of a part of the sheet, which is due past the `sent` bytes before it. It answers, as each function
// below, whether all was taken; where it was not, nothing more is written.
fn written(
    ids: &[u32],
    numbers: &[u32],
    answers: &[u32],
    many: usize,
    sent: &mut usize,
    part: &[u8],
) -> bool
    requires many_le_max_flights { many ≤ max_flights }
    requires due { Due (sheet_text ids.now numbers.now answers.now many) sent.old part.now }
    ensures { Sends sent.old part.now result sent.new }
{
    channel::inner::write(sent, part)
}

// The sheet: its heading, and the lines of so many movements.
pub(crate) fn sheet(
    ids: &[u32],
    numbers: &[u32],
    answers: &[u32],
    many: usize,
    out: &mut [u8],
    sent: &mut usize,
) -> bool
    requires many_le_max_flights { (many ≤ max_flights) × (longest_flight ≤ length out.old) }
    requires sent_value { sent.old ≡ 0 }
    ensures { Sends 0 (sheet_text ids.now numbers.now answers.now many) result
        sent.new }
{
    if !written(ids, numbers, answers, many, sent, b"id,track\r\n") {
        return false;
    }
    let mut i = 0;
    // Kept: (d) a turn puts as many lines as there is room for, and tells which comes next.
    while i < many {
        let part = put_lines(out, ids, numbers, answers, many, i);
        if !written(ids, numbers, answers, many, sent, &out[..part.size]) {
            return false;
        }
        i = part.next;
    }
    true
}

// The one line of a refusal.
pub(crate) fn refused(number: u32, line: u64, sent: &mut usize) -> bool
    requires may_write { MayWrite (refused_text number line) }
    requires sent_value { sent.old ≡ 0 }
    ensures { Run MayWrite result sent.new }
{
    let mut room = [0u8; 64];
    let n = put_refused(&mut room, number, line);
    write(sent, &room[..n])
}

// Its one write: no other text than what the two files come to may be handed to it.
fn write(sent: &mut usize, text: &[u8]) -> bool
    requires may_write { MayWrite text.now }
    requires sent_value { sent.old ≡ 0 }
    ensures { Run MayWrite result sent.new }
{
    channel::inner::write(sent, text)
}
