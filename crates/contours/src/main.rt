// The contours program: a network file on standard input and contour levels as arguments make a CSV on standard
// output, `level;wkt`, with one line of well-known text for each level. A refusal is the one line
// `refused,number,line`, with a sentence on standard error. It moves bytes; what it decides is decided in the
// libraries below.
#![tactic(auto)]

mod input;
mod print;
mod say;

ghost use Rattle.std.specs.Prelude.{◌≡◌, length};
ghost use Rattle.refusal.specs.Refusal.{number_of};
ghost use Rattle.channel.specs.System.Origin.{input};
ghost use Rattle.channel.specs.Input.{Fills};
ghost use Rattle.channel.specs.Run.{Run};
ghost use Rattle.contours_steps.specs.Answer.{ReadWhole, ReadFailed, ReadFull, MayWrite};
ghost use Rattle.contours_steps.specs.Sheet.{text_refusal, refused_at, max_text};
ghost use Rattle.contours_steps.specs.Words.{Gathered, max_contour_levels, given_refusal};
ghost use Rattle.contours_steps.specs.InnerDrawing.{Stored};

use channel::whole::Filled;
use contours_steps::inner::intake::{line_begun, overlong_line};
use contours_steps::words::{Given, MAX_CONTOUR_LEVELS, words_refusal};
use network::Frame;
use network::limits::MAX_SIDE;
use refusal::Refusal;
use said_contours::of_network;

// The descriptor of standard error.
const STDERR_FILENO: i32 = 2;

// Room for one byte more than the longest network text that is neither 17 nor 12: 65,536 values of up to 8 bytes, each
// with the space or line end behind it, and the header.
const MAX_TEXT: usize = 590_176;

// The numbers of a network's header, and the most levels that it has.
const HEADER_NUMBERS: usize = 5;

const MAX_POINTS: usize = MAX_SIDE as usize * MAX_SIDE as usize;

fn main(rt: HostRuntime) {
    let mut sent = 0;
    let went = run(&rt, &mut sent);
    if !went {
        io::write_all(STDERR_FILENO, b"the output could not be written\n");
    }
}

// All of it: what is read and given is answered. As each function from here on, it answers whether all was taken, and
// moves the one count of bytes that went.
fn run(rt: &HostRuntime, sent: &mut usize) -> bool
    requires { sent.old ≡ 0 }
    ensures { Run MayWrite result sent.new }
{
    let mut text = [0u8; MAX_TEXT];
    let mut asked = [0u32; MAX_CONTOUR_LEVELS];
    let read = channel::whole::read_all(rt, &mut text);
    let given = input::gather(rt, &mut asked);
    answer(rt, &text, read, &asked, given, sent)
}

// What the reading came to: only a network that was read to its end is judged.
fn answer(
    rt: &HostRuntime,
    text: &[u8],
    read: Filled,
    asked: &[u32],
    given: Given,
    sent: &mut usize,
) -> bool
    requires fills { Fills input read text.now }
    requires text_len { length text.now ≡ max_text }
    requires asked_len { length asked.now ≡ max_contour_levels }
    requires gathered { Gathered given asked.now }
    requires sent_value { sent.old ≡ 0 }
    ensures { Run MayWrite result sent.new }
{
    match read {
        Filled::Complete(size) => judged(rt, &text[..size], asked, given, sent),
        Filled::FailedAfter(size) => failed(&text[..size], asked, given, sent),
        Filled::Full => overlong(text, asked, given, sent),
    }
}

// The bytes can't be read on, which is never taken for their end.
fn failed(text: &[u8], asked: &[u32], given: Given, sent: &mut usize) -> bool
    requires read_failed { ReadFailed text.now }
    requires gathered { Gathered given asked.now }
    requires sent_value { sent.old ≡ 0 }
    ensures { Run MayWrite result sent.new }
{
    let line = line_begun(text);
    let went = print::failure(text, asked, given, line as u64, sent);
    if went {
        of_network::unread(b"network", line as u64);
    }
    went
}

// The bytes fill the buffer.
fn overlong(text: &[u8], asked: &[u32], given: Given, sent: &mut usize) -> bool
    requires read_full { ReadFull text.now }
    requires gathered { Gathered given asked.now }
    requires sent_value { sent.old ≡ 0 }
    ensures { Run MayWrite result sent.new }
{
    let line = overlong_line(text);
    let went = print::overlong(text, asked, given, line as u64, sent);
    if went {
        of_network::overlong(b"network", line as u64, text);
    }
    went
}

// The whole network is judged, and then the words.
fn judged(rt: &HostRuntime, text: &[u8], asked: &[u32], given: Given, sent: &mut usize) -> bool
    requires read_whole { ReadWhole text.now }
    requires gathered { Gathered given asked.now }
    requires asked_len { length asked.now ≡ max_contour_levels }
    requires sent_value { sent.old ≡ 0 }
    ensures { Run MayWrite result sent.new }
{
    let mut header = [0u32; HEADER_NUMBERS];
    let mut levels = [0u32; MAX_POINTS];
    if let Err(why) = grid::read::read_network(text, &mut header, &mut levels) {
        return refuse_network(text, why, asked, given, sent);
    }
    with_words(rt, text, &header, &levels, asked, given, sent)
}

// The network is refused.
fn refuse_network(text: &[u8], why: Refusal, asked: &[u32], given: Given, sent: &mut usize) -> bool
    requires read_whole { ReadWhole text.now }
    requires gathered { Gathered given asked.now }
    requires why_value { number_of why ≡ text_refusal text.now }
    requires sent_value { sent.old ≡ 0 }
    ensures { Run MayWrite result sent.new }
{
    let line = refused_line(text, why);
    let went = print::refusal(text, asked, given, why.number(), line, sent);
    if went {
        of_network::refused(b"network", why.number(), line, text);
    }
    went
}

// The first line at fault where the text is off its layout; the other refusals are of the whole.
fn refused_line(text: &[u8], why: Refusal) -> u64
    ensures { result ≡ refused_at text.now (number_of why) }
{
    match why {
        Refusal::NetworkOffLayout => grid::read::fault_line(text) as u64,
        _ => 0,
    }
}

// The words, for a network that is not refused.
fn with_words(
    rt: &HostRuntime,
    text: &[u8],
    header: &[u32],
    levels: &[u32],
    asked: &[u32],
    given: Given,
    sent: &mut usize,
) -> bool
    requires read_whole { ReadWhole text.now }
    requires gathered { Gathered given asked.now }
    requires asked_len { length asked.now ≡ max_contour_levels }
    requires text_value { text_refusal text.now ≡ 0 }
    requires stored { Stored text.now header.now levels.now }
    requires sent_value { sent.old ≡ 0 }
    ensures { Run MayWrite result sent.new }
{
    let Err(why) = words_refusal(given) else {
        return draw(text, header, levels, asked, given, sent);
    };
    let went = print::refusal(text, asked, given, why.number(), 0, sent);
    if went {
        say::words_off(rt, why, given.count);
    }
    went
}

// The sheet of a network and words that are not refused.
fn draw(
    text: &[u8],
    header: &[u32],
    levels: &[u32],
    asked: &[u32],
    given: Given,
    sent: &mut usize,
) -> bool
    requires read_whole { ReadWhole text.now }
    requires gathered { Gathered given asked.now }
    requires asked_len { length asked.now ≡ max_contour_levels }
    requires text_value { text_refusal text.now ≡ 0 }
    requires stored { Stored text.now header.now levels.now }
    requires given_value { given_refusal given ≡ 0 }
    requires sent_value { sent.old ≡ 0 }
    ensures { Run MayWrite result sent.new }
{
    let frame = Frame {
        columns: header[0],
        rows: header[1],
        spacing: header[2],
        west: header[3],
        south: header[4],
    };
    let points = frame.rows as usize * frame.columns as usize;
    let count = given.count;
    print::sheet(
        text,
        asked,
        given,
        &levels[..points],
        frame,
        &asked[..count],
        sent,
    )
}
