// A network text read into lent room.
ghost use Rattle.std.specs.Prelude.{◌≡◌, length};
ghost use Rattle.refusal.specs.Refusal.{told};
ghost use Rattle.refusal.specs.declared.Refusal.TheVariants.{NetworkOffLayout};
ghost use Rattle.text.specs.Line.{lines_of};
ghost use Rattle.grid.specs.File.{fault_line};
ghost use Rattle.grid.specs.Read.{read_refusal, header_after, levels_after};
ghost use Rattle.grid.specs.InnerSteps.{shape_refusal};

use crate::head::Fault;
use crate::judge::{File, judge};
use crate::store::{HEADER_SIZE, store_frame, store_rows};
use network::{is_placed, is_sided};
use refusal::Refusal;

impl From<Fault> for Refusal {
    ghost from_gives = { λ _ why. why ≡ NetworkOffLayout };

    fn from(_fault: Fault) -> Refusal {
        Refusal::NetworkOffLayout
    }
}

// Refuses a text on its layout whose rows don't fit or whose frame is out of range, and then a value that isn't sound.
fn shape_refusal(file: File) -> Result<(), Refusal>
    ensures { told result ≡ shape_refusal file.frame file.fits file.sound }
{
    if !(file.fits && is_sided(file.frame) && is_placed(file.frame)) {
        return Err(Refusal::WrongNetwork);
    }
    if file.sound {
        return Ok(());
    }
    Err(Refusal::WrongNetworkLevel)
}

// The number of the first line off the layout, or 0 where there is none.
pub fn fault_line(text: &[u8]) -> usize
    ensures { result ≡ fault_line (lines_of text.now) }
{
    match judge(text) {
        Ok(_) => 0,
        Err(fault) => fault.line,
    }
}

// Reads a network text: its header numbers and levels stand in the room lent, unless it is refused.
pub fn read_network(text: &[u8], header: &mut [u32], levels: &mut [u32]) -> Result<(), Refusal>
    ensures { (told result ≡ read_refusal text.now (length header.old)
        (length levels.old))
        × (header.new ≡ header_after text.now header.old levels.old)
        × (levels.new ≡ levels_after text.now header.old levels.old) }
{
    let file = judge(text)?;
    shape_refusal(file)?;
    let columns = file.frame.columns as usize;
    let rows = file.frame.rows as usize;
    if header.len() < HEADER_SIZE || levels.len() < rows * columns {
        return Err(Refusal::TooLittleRoom);
    }
    store_frame(file.frame, header);
    store_rows(text, file.rows, columns, rows, levels);
    Ok(())
}
