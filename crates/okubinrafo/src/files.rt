// Network files, read and written.
ghost use Rattle.std.specs.Prelude.{◌≡◌, length};
ghost use Rattle.grid.specs.Read.{read_refusal, header_after, levels_after};
ghost use Rattle.grid.specs.Write.{write_refusal, text_after, size_after};
ghost use Rattle.okubinrafo.specs.Networks.{frame_of};

use network::Frame;
use refusal::told;

// A network file, read: its five header numbers, and its levels in thousandths.
#[unsafe(no_mangle)]
pub extern "C" fn okubinrafo_read_network(
    text: &[u8],
    header: &mut [u32],
    levels: &mut [u32],
) -> u32
    ensures { (result ≡ read_refusal text.now
        (length header.old) (length levels.old))
        × (header.new ≡ header_after text.now header.old levels.old)
        × (levels.new ≡ levels_after text.now header.old levels.old) }
{
    told(grid::read::read_network(text, header, levels))
}

// A network file, written, and its size.
#[unsafe(no_mangle)]
pub extern "C" fn okubinrafo_write_network(
    levels: &[u32],
    columns: u32,
    rows: u32,
    spacing: u32,
    west: u32,
    south: u32,
    text: &mut [u8],
    size: &mut [u32],
) -> u32
    ensures { (result ≡ write_refusal levels.now (frame_of columns rows spacing west south)
        (length text.old) (length size.old))
        × (text.new ≡ text_after levels.now (frame_of columns rows spacing west south)
        text.old size.old)
        × (size.new ≡ size_after levels.now (frame_of columns rows spacing west south)
        text.old size.old) }
{
    let frame = Frame {
        columns,
        rows,
        spacing,
        west,
        south,
    };
    told(grid::write::write_network(levels, frame, text, size))
}
