// The columns of a flight's row, read field by field.
ghost use Rattle.std.specs.Prelude.{◌≡◌};
ghost use Rattle.flights.specs.Cell.{circuit_of, cell_of};

use crate::column::{CIRCUIT, CLASS, DATE, KIND, NUMBER, TIME};
use crate::day::date;
use crate::name::name;
use text::clock::time;
use text::inner::letter;
use text::number::whole;
use text::same::same_text;

// C for a circuit, or nothing.
fn circuit(t: &[u8]) -> Option<u32>
    ensures { result ≡ circuit_of t.now }
{
    match t {
        [] => Some(0),
        _ if same_text(t, b"C") => Some(1),
        _ => None,
    }
}

// What stands in column `k` of a row.
pub fn cell(k: usize, t: &[u8]) -> Option<u32>
    ensures { result ≡ cell_of k t.now }
{
    match k {
        NUMBER => whole(t),
        DATE => date(t),
        TIME => time(t),
        CLASS => letter(t, b"VH"),
        KIND => letter(t, b"SL"),
        _ if k < CIRCUIT => name(t),
        _ => circuit(t),
    }
}
