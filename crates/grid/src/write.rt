// A network written into lent room.
ghost use Rattle.std.specs.Prelude.{◌≡◌, length};
ghost use Rattle.refusal.specs.Refusal.{told};
ghost use Rattle.grid.specs.Write.{write_refusal, text_after, size_after};

use crate::put::put_network;
use crate::size::text_size;
use network::limits::MAX_NETWORK_LEVEL;
use network::{Frame, refusal};
use refusal::Refusal;

// Writes a network: its text and the text's size stand in the room lent, unless it is refused.
pub fn write_network(
    levels: &[u32],
    frame: Frame,
    text: &mut [u8],
    size: &mut [u32],
) -> Result<(), Refusal>
    ensures { (told result ≡ write_refusal levels.now frame (length text.old)
        (length size.old))
        × (text.new ≡ text_after levels.now frame text.old size.old)
        × (size.new ≡ size_after levels.now frame text.old size.old) }
{
    refusal(levels, frame, MAX_NETWORK_LEVEL)?;
    let n = text_size(levels, frame);
    if text.len() < n || size.is_empty() {
        return Err(Refusal::TooLittleRoom);
    }
    put_network(text, levels, frame);
    size[0] = n as u32;
    Ok(())
}
