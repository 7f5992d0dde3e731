// Crossings and map points for map layers.
ghost use Rattle.std.specs.Prelude.{◌∷◌, []};
ghost use Rattle.mapping.specs.OneCrossing.{OneCrossing};
ghost use Rattle.mapping.specs.Many.{Many};
ghost use Rattle.okubinrafo.specs.Networks.{frame_of};

use network::Frame;
use refusal::told;

// Where a contour crosses an edge: the number of the case, and the fraction.
#[unsafe(no_mangle)]
pub extern "C" fn okubinrafo_crossing(
    levels: &[u32],
    columns: u32,
    rows: u32,
    spacing: u32,
    west: u32,
    south: u32,
    level: u32,
    edge: u32,
    which: &mut [u32],
    fraction: &mut [f64],
) -> u32
    ensures { OneCrossing levels.now (frame_of columns rows spacing west south) level edge
        which.old fraction.old result which.new fraction.new }
{
    let frame = Frame {
        columns,
        rows,
        spacing,
        west,
        south,
    };
    told(mapping::put_crossing(levels, frame, level, edge, which, fraction))
}

// The map point of the crossing on an edge.
#[unsafe(no_mangle)]
pub extern "C" fn okubinrafo_map_point(
    levels: &[u32],
    columns: u32,
    rows: u32,
    spacing: u32,
    west: u32,
    south: u32,
    level: u32,
    edge: u32,
    which: &mut [u32],
    place: &mut [f64],
) -> u32
    ensures { Many levels.now (frame_of columns rows spacing west south) level (edge ∷ [])
        which.old place.old result which.new place.new }
{
    let frame = Frame {
        columns,
        rows,
        spacing,
        west,
        south,
    };
    told(mapping::put_map_point(levels, frame, level, edge, which, place))
}

// The map points of many edges, the network checked once.
#[unsafe(no_mangle)]
pub extern "C" fn okubinrafo_map_points(
    levels: &[u32],
    columns: u32,
    rows: u32,
    spacing: u32,
    west: u32,
    south: u32,
    level: u32,
    edges: &[u32],
    which: &mut [u32],
    places: &mut [f64],
) -> u32
    ensures { Many levels.now (frame_of columns rows spacing west south) level edges.now
        which.old places.old result which.new places.new }
{
    let frame = Frame {
        columns,
        rows,
        spacing,
        west,
        south,
    };
    told(mapping::map_points(levels, frame, level, edges, which, places))
}
