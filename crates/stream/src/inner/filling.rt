// A text as it comes, through a buffer of fixed size, into the table that it fills.
ghost use Rattle.std.specs.Prelude.{◌≡◌, ◌+◌, ◌<◌, length, take};
ghost use Rattle.channel.specs.System.{Descriptor};
ghost use Rattle.channel.specs.Input.{origin_of};
ghost use Rattle.stream.specs.Reading.{reading_at, Longest};
ghost use Rattle.stream.specs.Feeding.{Waiting, Turned, Done};

use crate::inner::tables::{Table, fill_last, fill_piece};
use crate::inner::{ended, failed, turned};
use crate::{State, Turn};
use channel::file::Source;
use channel::inner::read_from;
use channel::input::Arrived;

// One turn: bytes are read behind those that wait, and the lines that they end are taken.
fn fill_on<T: Table>(
    rt: &HostRuntime,
    opened: bool,
    name: &str,
    source: &Source,
    taken: &mut u64,
    table: &mut T,
    bytes: &mut [u8],
    left: usize,
    line: u64,
) -> Turn
    requires descriptor { Descriptor source.now (origin_of opened name.now) }
    requires ready { T.Ready table.old }
    requires waiting { Waiting T.LONGEST bytes.old left line taken.old }
    ensures turned { Turned (origin_of opened name.now) (T.step table.old) T.LONGEST
        (reading_at 0 line (T.held table.old line)) (take left bytes.old) taken.old result
        (T.held table.new result.line) bytes.new taken.new }
    ensures kept { T.Ready table.new }
    ensures same { T.step table.new ≡ T.step table.old }
    ensures lent { T.memory table.new ≡ T.memory table.old }
{
    match read_from(rt, opened, name, source, taken, &mut bytes[left..]) {
        Arrived::Bytes(n) => turned(fill_piece(table, bytes, left + n, line)),
        Arrived::End => ended(fill_last(table, &bytes[..left], line), left),
        Arrived::Failed => failed(line),
    }
}

// Reads a text from its beginning.
pub fn fill_whole<T: Table>(
    rt: &HostRuntime,
    opened: bool,
    name: &str,
    source: &Source,
    taken: &mut u64,
    table: &mut T,
    bytes: &mut [u8],
) -> Turn
    requires descriptor { Descriptor source.now (origin_of opened name.now) }
    requires taken_value { taken.old ≡ 0 }
    requires ready { T.Ready table.old }
    requires long_is_off { Longest (T.step table.old) T.LONGEST }
    requires room { T.LONGEST + 2 < length bytes.old }
    ensures done { Done (origin_of opened name.now) (T.step table.old) T.LONGEST (T.held table.old 1) result
        (T.held table.new result.line) }
    ensures lent { T.memory table.new ≡ T.memory table.old }
{
    let mut left = 0;
    let mut line = 1;
    loop {
        let turn = fill_on(rt, opened, name, source, taken, table, bytes, left, line);
        match turn.state {
            State::Going => {
                left = turn.left;
                line = turn.line;
            }
            _ => return turn,
        }
    }
}
