// The program report: limits.csv in the current folder and a register on standard input make the report on
// standard output.
#![tactic(auto)]

use files::inner::{REPORT, run};

// The descriptor of standard error.
const STDERR_FILENO: i32 = 2;

fn main(rt: HostRuntime) {
    let mut sent = 0;
    let all = run(&rt, REPORT, &mut sent);
    if !all {
        io::write_all(STDERR_FILENO, b"the output could not be written\n");
    }
}
