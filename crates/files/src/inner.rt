// The answer to limits.csv and a register: the text that a program writes. For a person, a refusal also gets a sentence
// on standard error, and so do rows that an answer passed over.
ghost use Rattle.std.specs.Prelude.{◌≡◌, ◌≤◌, length, take};
ghost use Rattle.io.specs.Counts.{IsPrefixLen};
ghost use Rattle.movement.specs.Limits.{max_points};
ghost use Rattle.book_rules.specs.Columns.{book_lent};
ghost use Rattle.book_rules.specs.History.{empty_book};
ghost use Rattle.refusal.specs.Refusal.{number_of};
ghost use Rattle.register.specs.LimitsFile.{accepted_limits};
ghost use Rattle.report_text.specs.InnerRoom.{LimitsFit};
ghost use Rattle.text.specs.Sheet.{refused_text};
ghost use Rattle.text.specs.InnerWithin.{longest_refused, WroteWithin};
ghost use Rattle.explain_text.specs.InnerRoom.{longest_text};
ghost use Rattle.channel.specs.Run.{Run};
ghost use Rattle.report_rules.specs.Report.{book_rows, limits_room, Opened, Written, MayWrite};
ghost use Rattle.stream.specs.Feeding.{turned_to};
ghost use Rattle.files.specs.InnerSteps.{Sized, AnsweredIn, WrittenIn, Told};
ghost use Rattle.files.specs.Kinds.{kind_of, telling_of};

use crate::{feed, sentences};
use channel::whole::{Filled, read_file};
use explain_text::inner::put_explained;
use movement::limits::MAX_POINTS;
use refusal::Refusal;
use register::limits_csv::{Limits, read_limits};
use report_text::inner::{Report, put_report};
use stream::Turn;
use text::inner::put_refused;

// Which text a program makes of the book: the report, or how each load comes about.
#[derive(Clone, Copy, PartialEq, Eq)]
pub enum Kind {
    Report,
    Explain,
}

// Their numbers, by which `run` is asked for one; any other number asks for the report.
pub const REPORT: u32 = 0;

pub const EXPLAIN: u32 = 1;

impl Kind {
    // The kind of a number.
    fn numbered(number: u32) -> Kind
        ensures { result ≡ kind_of number }
    {
        if number == EXPLAIN {
            Kind::Explain
        } else {
            Kind::Report
        }
    }
}

// The rows of the report's own book, and the levels of that many rows at eight points.
const BOOK_ROWS: usize = 2000;

const BOOK_LEVELS: usize = BOOK_ROWS * MAX_POINTS;

// Puts limits.csv at the start of the buffer and answers its length. One that can't be opened or read counts as empty.
fn limits_text(rt: &HostRuntime, text: &mut [u8]) -> usize
    requires { length text.old ≡ limits_room }
    ensures { IsPrefixLen result text.new × Opened (take result text.new) }
{
    match read_file(rt, "limits.csv", text) {
        Filled::Complete(size) => size,
        Filled::FailedAfter(_) => 0,
        Filled::Full => text.len(),
    }
}

// The text that answers limits.csv and the register, at the front of the buffer.
fn answer(rt: &HostRuntime, kind: Kind, text: &[u8], out: &mut [u8]) -> usize
    requires opened { Opened text.now }
    requires longest_text_in_bounds { longest_text ≤ length out.old }
    ensures { WrittenIn (telling_of kind) text.now out.new result }
{
    let limits = match read_limits(text) {
        Ok(limits) => limits,
        Err(refused) => {
            sentences::limits(rt, refused, text);
            return put_refused(out, refused.why.number(), refused.line as u64);
        }
    };
    let mut ids = [0u32; BOOK_ROWS];
    let mut groups = [0u32; BOOK_ROWS];
    let mut marks = [0u32; BOOK_ROWS];
    let mut counts = [0u32; BOOK_LEVELS];
    let mut levels = [0u32; BOOK_LEVELS];
    report(
        rt,
        kind,
        &mut ids,
        &mut groups,
        &mut marks,
        &mut counts,
        &mut levels,
        limits,
        out,
    )
}

// The report of a register, into these columns; of the last two only as many numbers as the points need.
fn report(
    rt: &HostRuntime,
    kind: Kind,
    ids: &mut [u32],
    groups: &mut [u32],
    marks: &mut [u32],
    counts: &mut [u32],
    levels: &mut [u32],
    limits: Limits,
    out: &mut [u8],
) -> usize
    requires levels_value { book_lent ids.old groups.old marks.old counts.old levels.old
        ≡ empty_book max_points book_rows }
    requires limits_fit { LimitsFit (accepted_limits limits) × (longest_text ≤ length out.old) }
    ensures { AnsweredIn (telling_of kind) (accepted_limits limits) out.new result }
{
    let room = BOOK_ROWS * limits.points as usize;
    report_in(
        rt,
        kind,
        ids,
        groups,
        marks,
        &mut counts[..room],
        &mut levels[..room],
        limits,
        out,
    )
}

// The register is read into the book; then its report is written, or its refusal.
fn report_in(
    rt: &HostRuntime,
    kind: Kind,
    ids: &mut [u32],
    groups: &mut [u32],
    marks: &mut [u32],
    counts: &mut [u32],
    levels: &mut [u32],
    limits: Limits,
    out: &mut [u8],
) -> usize
    requires levels_value { book_lent ids.old groups.old marks.old counts.old levels.old
        ≡ empty_book limits.points book_rows }
    requires limits_fit { LimitsFit (accepted_limits limits) × (longest_text ≤ length out.old) }
    ensures { AnsweredIn (telling_of kind) (accepted_limits limits) out.new result }
{
    let points = limits.points as usize;
    let mut bytes = io::large_buffer();
    let read = feed::read_register(rt, ids, groups, marks, counts, levels, points, &mut bytes);
    answer_read(
        rt, kind, ids, groups, marks, counts, levels, limits, &bytes, read, out,
    )
}

// The answer to a register that was read: its refusal, or the text of its book.
fn answer_read(
    rt: &HostRuntime,
    kind: Kind,
    ids: &[u32],
    groups: &[u32],
    marks: &[u32],
    counts: &[u32],
    levels: &[u32],
    limits: Limits,
    bytes: &[u8],
    read: Turn,
    out: &mut [u8],
) -> usize
    requires { LimitsFit (accepted_limits limits) × (longest_text ≤ length out.old) }
    ensures { Sized (telling_of kind) (accepted_limits limits)
        (turned_to read (book_lent ids.now groups.now marks.now counts.now levels.now))
        out.new result }
{
    match read.refusal {
        Err(why) => refuse(rt, bytes, read, why, limits, out),
        Ok(()) => {
            let made = put_told(kind, out, ids, groups, marks, counts, levels, limits);
            sentences::answer(rt, made.outcome, read.line, ids);
            made.size
        }
    }
}

// The register is refused: its one line, and the sentence that goes with it.
fn refuse(
    rt: &HostRuntime,
    bytes: &[u8],
    read: Turn,
    why: Refusal,
    limits: Limits,
    out: &mut [u8],
) -> usize
    requires { longest_text ≤ length out.old }
    ensures { WroteWithin longest_refused out.old 0 (refused_text (number_of why) read.line)
        out.new result }
{
    sentences::refusal(rt, bytes, read, why, limits.points);
    put_refused(out, why.number(), read.line)
}

// The text of the book.
fn put_told(
    kind: Kind,
    out: &mut [u8],
    ids: &[u32],
    groups: &[u32],
    marks: &[u32],
    counts: &[u32],
    levels: &[u32],
    limits: Limits,
) -> Report
    requires { LimitsFit (accepted_limits limits) × (longest_text ≤ length out.old) }
    ensures { Told (telling_of kind) (accepted_limits limits)
        (book_lent ids.now groups.now marks.now counts.now levels.now) out.old
        result
        out.new }
{
    match kind {
        Kind::Report => put_report(out, ids, groups, marks, counts, levels, limits),
        Kind::Explain => put_explained(out, ids, groups, marks, counts, levels, limits),
    }
}

// The one write on standard output: no other text than the program's may be handed to it.
fn write(kind: Kind, limits: &[u8], sent: &mut usize, text: &[u8]) -> bool
    requires written { Written (telling_of kind) limits.now text.now }
    requires sent_value { sent.old ≡ 0 }
    ensures { Run (MayWrite (telling_of kind)) result sent.new }
{
    channel::inner::write(sent, text)
}

// All of a program: its files are read, its text is written, and it answers whether all of it was taken.
pub fn run(rt: &HostRuntime, kind: u32, sent: &mut usize) -> bool
    requires { sent.old ≡ 0 }
    ensures { Run (MayWrite (telling_of (kind_of kind))) result sent.new }
{
    let made = Kind::numbered(kind);
    let mut text = io::buffer();
    let n = limits_text(rt, &mut text);
    let mut out = io::large_buffer();
    let size = answer(rt, made, &text[..n], &mut out);
    write(made, &text[..n], sent, &out[..size])
}
