// Lines that a caller's own types take, as the script in the file stdin has them; its lines end in CRLF, and it is read
// as such lines itself. Each line of output has the case's name, the answers and what they should be; behind a piece
// stand the bytes that are left of it. A line of the script has its kind, the text, and last what is shown of the
// answers. Then come a file of which a line is refused, and one that isn't there.
#![tactic(auto)]

use crate::files::{end, file};
use crate::script::Script;
use channel::file::Source;
use stream::inner::reading::read_whole;

mod files;
mod script;
mod short;
mod table;
mod taken;

// Room for a line of the script, its CRLF and a byte more, so that it comes in many pieces.
const ROOM: usize = 123;

fn main(rt: HostRuntime) {
    let mut script = Script { last: 0 };
    let mut bytes = [0u8; ROOM];
    let mut taken = 0;
    let turn = read_whole(
        &rt,
        false,
        "",
        &Source::Input,
        &mut taken,
        &mut script,
        &mut bytes,
    );
    end(b"the script", turn, b"1 20 0\n");
    file(&rt, "refused.csv", b"2 2 16\n");
    file(&rt, "absent.csv", b"3 1 16\n");
}
