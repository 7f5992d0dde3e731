// What the program says to a person on standard error. The launcher gives the names that were typed as arguments, the
// movements' and that of tracks.csv; without them a file is called by what it is.
ghost use Rattle.std.specs.Prelude.{◌<◌, ◌≤◌, length};
ghost use Rattle.coupling_rules.specs.Limits.{max_flights};
ghost use Rattle.couple_steps.specs.InnerTable.{Roomy};

use channel::words::argument;
use coupling::limits::MAX_FLIGHTS;
use flights::TRACK_COLUMNS;
use flights::column::{CIRCUIT, CLASS};
use refusal::Refusal;
use stream::{State, Turn};

// The places of the two names among the arguments.
const MOVEMENTS: usize = 1;

const TRACKS: usize = 2;

// Movements with a track, aeroplanes' circuits, which take none, and others without one.
#[derive(Clone, Copy)]
struct Counts {
    with_track: u64,
    circuits: u64,
    none: u64,
}

// The file of so many columns is refused.
pub(crate) fn refused(rt: &HostRuntime, columns: usize, bytes: &[u8], read: Turn, why: Refusal) {
    let mut name = io::buffer();
    let (place, plain): (usize, &[u8]) = if columns == TRACK_COLUMNS {
        (TRACKS, b"tracks.csv")
    } else {
        (MOVEMENTS, b"movements")
    };
    let n = argument(rt, place, &mut name);
    let file = if n == 0 { plain } else { &name[..n] };
    told(file, columns, bytes, read, why);
}

// The line stands in the buffer where the reading says.
fn told(file: &[u8], columns: usize, bytes: &[u8], read: Turn, why: Refusal) {
    if read.state == State::Failed {
        said_couple::unread(file, read.line, columns);
    } else {
        let ended = read.state == State::Ended;
        said_couple::refused_in(
            file,
            bytes,
            read.at,
            read.left,
            ended,
            read.line,
            why.number(),
            columns,
        );
    }
}

// How many of `m` movements have one of `n` tracks, and how many have none.
pub(crate) fn counted(movements: &[u32], answers: &[u32], m: usize, n: usize)
    requires roomy { Roomy 9 movements.now }
    requires m_le_max_flights { (m ≤ max_flights) × (m ≤ length answers.now) }
{
    let counts = count(movements, answers, m);
    let left = (n as u64).saturating_sub(counts.with_track);
    said_couple::counted(
        m as u64,
        counts.with_track,
        counts.circuits,
        counts.none,
        left,
    );
}

fn count(movements: &[u32], answers: &[u32], m: usize) -> Counts
    requires roomy { Roomy 9 movements.now }
    requires m_le_max_flights { (m ≤ max_flights) × (m ≤ length answers.now) }
{
    let mut with_track = 0;
    let mut circuits = 0;
    let mut none = 0;
    for i in 0..m {
        if answers[i] != 0 {
            with_track += 1;
        } else if is_circuit(movements, i) {
            circuits += 1;
        } else {
            none += 1;
        }
    }
    Counts {
        with_track,
        circuits,
        none,
    }
}

// An aeroplane's circuit.
fn is_circuit(movements: &[u32], i: usize) -> bool
    requires roomy { Roomy 9 movements.now }
    requires i_lt_max_flights { i < max_flights }
{
    movements[CLASS * MAX_FLIGHTS + i] == 0 && movements[CIRCUIT * MAX_FLIGHTS + i] != 0
}
