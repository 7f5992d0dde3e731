// A file as it comes, through a buffer of fixed size, into its table: tracks.csv, or the movements on standard input.
ghost use Rattle.std.specs.Prelude.{◌≡◌, ◌+◌, ◌*◌, ◌<◌, [], length};
ghost use Rattle.channel.specs.System.Origin.{input};
ghost use Rattle.coupling_rules.specs.Limits.{max_flights};
ghost use Rattle.stream.specs.Feeding.{Done};
ghost use Rattle.couple_steps.specs.Table.{table_step, longest_text};
ghost use Rattle.couple_steps.specs.Written.{tracks_origin};
ghost use Rattle.couple_steps.specs.InnerTable.{held_in};

use channel::file::{Source, close_file, open_file};
use couple_steps::inner::feeding::{Movements, Tracks};
use stream::Turn;
use stream::inner::filling::fill_whole;

// Reads tracks.csv of the current folder. One that can't be opened can't be read.
pub(crate) fn read_tracks(rt: &HostRuntime, table: &mut Tracks, bytes: &mut [u8]) -> Turn
    requires cells_len { length table.old.cells ≡ 8 * max_flights }
    requires longest_text_in_bounds { longest_text + 2 < length bytes.old }
    ensures { Done tracks_origin (table_step 8) longest_text [] result (held_in 8 table.new.cells result.line) }
{
    let source = open_file(rt, "tracks.csv");
    let mut taken = 0;
    let turn = fill_whole(rt, true, "tracks.csv", &source, &mut taken, table, bytes);
    close_file(source);
    turn
}

// Reads the movements from standard input.
pub(crate) fn read_movements(rt: &HostRuntime, table: &mut Movements, bytes: &mut [u8]) -> Turn
    requires cells_len { length table.old.cells ≡ 9 * max_flights }
    requires longest_text_in_bounds { longest_text + 2 < length bytes.old }
    ensures { Done input (table_step 9) longest_text [] result (held_in 9 table.new.cells result.line) }
{
    let mut taken = 0;
    fill_whole(rt, false, "", &Source::Input, &mut taken, table, bytes)
}
