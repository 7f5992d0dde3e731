// Crossings and map points for map layers, in binary64: RULES, "Network and contours".
#![tactic(auto)]

ghost use Rattle.std.specs.Prelude.{◌≡◌, ◌*◌, ◌≤◌, [], ◌∷◌, length};
ghost use Rattle.refusal.specs.Refusal.{told};
ghost use Rattle.room.specs.Room.{front};
ghost use Rattle.network.specs.Edges.{Checked};
ghost use Rattle.mapping.specs.Fractions.{which_of, fraction_shown, CrossingAsked};
ghost use Rattle.mapping.specs.Places.{shown_of, MapPointAsked};
ghost use Rattle.mapping.specs.Many.{numbers_of, places_of, Many};
ghost use Rattle.mapping.specs.OneCrossing.{OneCrossing};

use network::Frame;
use network::limits::MAX_NETWORK_LEVEL;
use refusal::Refusal;

mod edge;
mod place;

// Where a contour crosses an edge: nowhere, or at a fraction of a horizontal or a vertical edge from its west or south
// end.
// Kept: (a) FORMS has it as an enum of three cases.
#[derive(Clone, Copy)]
pub enum Crossing {
    Nowhere,
    AlongHorizontal(f64),
    AlongVertical(f64),
}

// A place on the map, in metres east and north.
#[derive(Clone, Copy)]
pub struct MapPoint {
    pub x: f64,
    pub y: f64,
}

// The map point of a crossing, by the kind of its edge.
#[derive(Clone, Copy)]
pub enum Located {
    OnHorizontal(MapPoint),
    OnVertical(MapPoint),
}

// A map point by number and coordinates: 0 none, 1 on a horizontal edge, 2 on a vertical edge.
// Kept: (a) a number for the kind; the C interface writes these three.
#[derive(Clone, Copy)]
pub struct Shown {
    pub which: u32,
    pub x: f64,
    pub y: f64,
}

// The number of a crossing: 0 none, 1 along a horizontal edge, 2 along a vertical edge.
pub fn which_of(c: Crossing) -> u32
    ensures { result ≡ which_of c }
{
    match c {
        Crossing::Nowhere => 0,
        Crossing::AlongHorizontal(_) => 1,
        Crossing::AlongVertical(_) => 2,
    }
}

// The fraction of a crossing, 0.0 where there is none.
pub fn fraction_of(c: Crossing) -> f64
    ensures { result ≡ fraction_shown c }
{
    match c {
        Crossing::Nowhere => 0.0,
        Crossing::AlongHorizontal(f) | Crossing::AlongVertical(f) => f,
    }
}

// The number and coordinates of a map point, 0.0 and 0.0 where there is none.
pub fn shown_of(l: Option<Located>) -> Shown
    ensures { result ≡ shown_of l }
{
    match l {
        None => Shown {
            which: 0,
            x: 0.0,
            y: 0.0,
        },
        Some(Located::OnHorizontal(p)) => Shown {
            which: 1,
            x: p.x,
            y: p.y,
        },
        Some(Located::OnVertical(p)) => Shown {
            which: 2,
            x: p.x,
            y: p.y,
        },
    }
}

// The crossing at level v of the edge of a number, if there is one.
pub fn crossing_at(levels: &[u32], frame: Frame, v: u32, n: u32) -> Result<Crossing, Refusal>
    ensures { CrossingAsked levels.now frame v n result }
{
    network::contour_refusal(levels, frame, v, MAX_NETWORK_LEVEL)?;
    Ok(edge::crossing_of(levels, frame, v, n))
}

// The map point of the crossing at level v of the edge of a number, if there is one.
pub fn map_point(levels: &[u32], frame: Frame, v: u32, n: u32) -> Result<Option<Located>, Refusal>
    ensures { MapPointAsked levels.now frame v n result }
{
    network::contour_refusal(levels, frame, v, MAX_NETWORK_LEVEL)?;
    Ok(place::locate_at(levels, frame, v, n))
}

// The map points of edges of a checked network, into room that suffices.
fn fill_points(
    levels: &[u32],
    frame: Frame,
    v: u32,
    edges: &[u32],
    which: &mut [u32],
    places: &mut [f64],
)
    requires { Checked levels.now frame
        × ((length edges.now ≤ length which.old) × (2 * length edges.now ≤ length places.old)) }
    ensures { (which.new
        ≡ front (numbers_of levels.now frame v edges.now) which.old)
        × (places.new
        ≡ front (places_of levels.now frame v edges.now) places.old) }
{
    for (i, n) in edges.iter().enumerate() {
        let shown = shown_of(place::locate_at(levels, frame, v, *n));
        which[i] = shown.which;
        places[2 * i] = shown.x;
        places[2 * i + 1] = shown.y;
    }
}

// The map points of many edges, the network checked once: one number and two coordinates an edge.
pub fn map_points(
    levels: &[u32],
    frame: Frame,
    v: u32,
    edges: &[u32],
    which: &mut [u32],
    places: &mut [f64],
) -> Result<(), Refusal>
    ensures { Many levels.now frame v edges.now which.old
        places.old (told result) which.new places.new }
{
    network::contour_refusal(levels, frame, v, MAX_NETWORK_LEVEL)?;
    if which.len() < edges.len() || places.len() / 2 < edges.len() {
        return Err(Refusal::TooLittleRoom);
    }
    fill_points(levels, frame, v, edges, which, places);
    Ok(())
}

// The crossing at level v of the edge of a number, as its number and its fraction in lent room.
pub fn put_crossing(
    levels: &[u32],
    frame: Frame,
    v: u32,
    n: u32,
    which: &mut [u32],
    fraction: &mut [f64],
) -> Result<(), Refusal>
    ensures { OneCrossing levels.now frame v n which.old fraction.old (told result)
        which.new fraction.new }
{
    network::contour_refusal(levels, frame, v, MAX_NETWORK_LEVEL)?;
    if which.is_empty() || fraction.is_empty() {
        return Err(Refusal::TooLittleRoom);
    }
    let c = edge::crossing_of(levels, frame, v, n);
    which[0] = which_of(c);
    fraction[0] = fraction_of(c);
    Ok(())
}

// The map point of one edge, as its number and its coordinates in lent room.
pub fn put_map_point(
    levels: &[u32],
    frame: Frame,
    v: u32,
    n: u32,
    which: &mut [u32],
    place: &mut [f64],
) -> Result<(), Refusal>
    ensures { Many levels.now frame v (n ∷ []) which.old place.old (told result)
        which.new place.new }
{
    let edges = [n];
    map_points(levels, frame, v, &edges, which, place)
}
