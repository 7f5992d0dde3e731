// The program couple: tracks.csv of the current folder and the movements on standard input make a CSV on standard
// output, `id,track`, with a line for each movement. A refusal is the one line `refused,number,line`, with a sentence
// on standard error. It moves bytes; what it decides is decided in the libraries below.
#![tactic(auto)]

mod feed;
mod print;
mod say;

ghost use Rattle.std.specs.Prelude.{◌≡◌, ◌+◌, ◌<◌, length};
ghost use Rattle.channel.specs.System.Origin.{input};
ghost use Rattle.channel.specs.Run.{Run};
ghost use Rattle.refusal.specs.Refusal.{number_of};
ghost use Rattle.text.specs.Sheet.{refused_text};
ghost use Rattle.couple_steps.specs.Table.{longest_text};
ghost use Rattle.couple_steps.specs.Written.{tracks_origin, MayWrite};
ghost use Rattle.couple_steps.specs.InnerTable.{TableRead};

use couple_steps::inner::feeding::{MOVEMENT_CELLS, Movements, TRACK_CELLS, Tracks};
use coupling::inner::couple_tables;
use coupling::limits::MAX_FLIGHTS;
use flights::{MOVEMENT_COLUMNS, TRACK_COLUMNS};
use refusal::Refusal;
use stream::Turn;

// The descriptor of standard error.
const STDERR_FILENO: i32 = 2;

fn main(rt: HostRuntime) {
    let mut sent = 0;
    if !run(&rt, &mut sent) {
        io::write_all(STDERR_FILENO, b"the output could not be written\n");
    }
}

// All of it: tracks.csv is read first, and where it is refused the movements are not read. As each function from here
// on, it answers whether all was taken, and moves the one count of bytes that went.
fn run(rt: &HostRuntime, sent: &mut usize) -> bool
    requires { sent.old ≡ 0 }
    ensures { Run MayWrite result sent.new }
{
    let mut tracks = Tracks {
        cells: [0u32; TRACK_CELLS],
    };
    let mut bytes = io::large_buffer();
    let read = feed::read_tracks(rt, &mut tracks, &mut bytes);
    match read.refusal {
        Ok(()) => with_movements(rt, &tracks.cells, read, &mut bytes, sent),
        Err(why) => refuse(rt, TRACK_COLUMNS, &bytes, read, why, sent),
    }
}

// A file is refused: its one line, and the sentence that goes with it.
fn refuse(
    rt: &HostRuntime,
    columns: usize,
    bytes: &[u8],
    read: Turn,
    why: Refusal,
    sent: &mut usize,
) -> bool
    requires may_write { MayWrite (refused_text (number_of why) read.line) }
    requires sent_value { sent.old ≡ 0 }
    ensures { Run MayWrite result sent.new }
{
    let went = print::refused(why.number(), read.line, sent);
    if went {
        say::refused(rt, columns, bytes, read, why);
    }
    went
}

// The movements, where tracks.csv is not refused.
fn with_movements(
    rt: &HostRuntime,
    tracks: &[u32],
    read: Turn,
    bytes: &mut [u8],
    sent: &mut usize,
) -> bool
    requires table_read { TableRead tracks_origin 8 tracks.now read }
    requires longest_text_in_bounds { longest_text + 2 < length bytes.old }
    requires sent_value { sent.old ≡ 0 }
    ensures { Run MayWrite result sent.new }
{
    let mut movements = Movements {
        cells: [0u32; MOVEMENT_CELLS],
    };
    let next = feed::read_movements(rt, &mut movements, bytes);
    match next.refusal {
        Ok(()) => coupled(tracks, read, &movements.cells, next, bytes, sent),
        Err(why) => refuse(rt, MOVEMENT_COLUMNS, bytes, next, why, sent),
    }
}

// Neither is refused: each movement takes its track, and the sheet is written.
fn coupled(
    tracks: &[u32],
    read: Turn,
    movements: &[u32],
    next: Turn,
    out: &mut [u8],
    sent: &mut usize,
) -> bool
    requires table_read { TableRead tracks_origin 8 tracks.now read }
    requires table_read_2 { TableRead input 9 movements.now next }
    requires longest_text_in_bounds { longest_text + 2 < length out.old }
    requires sent_value { sent.old ≡ 0 }
    ensures { Run MayWrite result sent.new }
{
    let mut answers = [0u32; MAX_FLIGHTS];
    let n = read.line as usize - 2;
    let m = next.line as usize - 2;
    couple_tables(movements, m, tracks, n, &mut answers);
    let went = print::sheet(movements, tracks, &answers, m, out, sent);
    if went {
        say::counted(movements, &answers, m, n);
    }
    went
}
