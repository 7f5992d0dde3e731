// The register as it comes, through a buffer of fixed size.
ghost use Rattle.std.specs.Prelude.{◌≡◌, ◌<◌, true, length};
ghost use Rattle.book_rules.specs.Columns.{book_lent, sound};
ghost use Rattle.channel.specs.System.Origin.{input};
ghost use Rattle.stream.specs.Feeding.{Done};
ghost use Rattle.report_steps.specs.Stream.{longest_row, longest_line};
ghost use Rattle.report_steps.specs.Reading.{register_step};

use channel::file::Source;
use report_steps::inner::feeding::Register;
use stream::Turn;
use stream::inner::filling::fill_whole;

// Reads the register into the book.
pub(crate) fn read_register(
    rt: &HostRuntime,
    ids: &mut [u32],
    groups: &mut [u32],
    marks: &mut [u32],
    counts: &mut [u32],
    levels: &mut [u32],
    points: usize,
    bytes: &mut [u8],
) -> Turn
    requires levels_value { sound points (book_lent ids.old groups.old marks.old counts.old levels.old) ≡ true }
    requires longest_line_in_bounds { longest_line < length bytes.old }
    ensures { Done input (register_step points) longest_row
        (book_lent ids.old groups.old marks.old counts.old levels.old) result
        (book_lent ids.new groups.new marks.new counts.new levels.new) }
{
    let mut register = Register {
        ids,
        groups,
        marks,
        counts,
        levels,
        points,
    };
    let mut taken = 0;
    fill_whole(
        rt,
        false,
        "",
        &Source::Input,
        &mut taken,
        &mut register,
        bytes,
    )
}
