// What a program says to a person on standard error. The launcher gives the names that were typed as arguments, the
// register's and that of limits.csv; without them a file is called by what it is.
use channel::words::argument;
use refusal::Refusal;
use register::limits_csv::LimitsRefused;
use said_report::{of_limits, of_register};
use stream::{State, Turn};

// The places of the two names among the arguments.
const REGISTER: usize = 1;

const LIMITS: usize = 2;

// limits.csv is refused.
pub fn limits(rt: &HostRuntime, refused: LimitsRefused, text: &[u8]) {
    let mut name = io::buffer();
    let file = match argument(rt, LIMITS, &mut name) {
        0 => b"limits.csv",
        n => &name[..n],
    };
    of_limits::refused(file, refused.line as u64, refused.why.number(), text);
}

// The register is refused. The line stands in the buffer where the reading says.
pub fn refusal(rt: &HostRuntime, bytes: &[u8], read: Turn, why: Refusal, points: u32) {
    let mut name = io::buffer();
    let file = match argument(rt, REGISTER, &mut name) {
        0 => b"register",
        n => &name[..n],
    };
    if read.state == State::Failed {
        of_register::unread(file, read.line);
        return;
    }
    of_register::refused_in(
        file,
        bytes,
        read.at,
        read.left,
        read.state == State::Ended,
        read.line,
        why.number(),
        points,
    );
}

// The book of a register that was read to its end is refused, or answered; `next` is the number of the line past it.
pub fn answer(rt: &HostRuntime, outcome: Result<(), Refusal>, next: u64, ids: &[u32]) {
    let mut name = io::buffer();
    let file = match argument(rt, REGISTER, &mut name) {
        0 => b"register",
        n => &name[..n],
    };
    match outcome {
        Ok(()) => of_register::passed_over(file, next, ids),
        Err(why) => of_register::of_book(file, why.number()),
    }
}
