// The cases of the rules that run in no other program: crossings and map points, on the hill that they work by hand.
// Each line of output has an answer and then what it should be.
#![tactic(auto)]

use network::Frame;

// The descriptor of standard output.
const STDOUT_FILENO: i32 = 1;

fn main() {
    edges();
    refusals();
    fractions();
    places();
    steps();
}

// Three by three points, the middle 50.000 and the others 40.000.
fn hill() -> [u32; 9] {
    [
        40000, 40000, 40000, 40000, 50000, 40000, 40000, 40000, 40000,
    ]
}

// Its south-west point lies 1,000 m east and 2,000 m north.
fn frame(spacing: u32) -> Frame {
    Frame {
        columns: 3,
        rows: 3,
        spacing,
        west: 1000,
        south: 2000,
    }
}

fn show(name: &[u8], answer: u32, should: u32) {
    io::write_all(STDOUT_FILENO, name);
    io::write_all(STDOUT_FILENO, b": ");
    io::print_decimal(STDOUT_FILENO, answer as u64);
    io::write_all(STDOUT_FILENO, b", should be ");
    io::print_decimal(STDOUT_FILENO, should as u64);
    io::write_all(STDOUT_FILENO, b"\n");
}

// 0 none, 1 along a horizontal edge, 2 along a vertical edge; 100 and its number for a refusal.
fn which(spacing: u32, v: u32, edge: u32) -> u32 {
    let levels = hill();
    match mapping::crossing_at(&levels, frame(spacing), v, edge) {
        Ok(c) => mapping::which_of(c),
        Err(why) => 100 + why.number() % 100,
    }
}

// Whether the fraction along an edge is f, 1 or 0.
fn fraction_is(v: u32, edge: u32, f: f64) -> u32 {
    let levels = hill();
    match mapping::crossing_at(&levels, frame(100), v, edge) {
        Ok(c) => (mapping::fraction_of(c) == f) as u32,
        Err(_) => 0,
    }
}

// Whether the map point of an edge is x east and y north, 1 or 0.
fn place_is(spacing: u32, v: u32, edge: u32, x: f64, y: f64) -> u32 {
    let levels = hill();
    match mapping::map_point(&levels, frame(spacing), v, edge) {
        Ok(l) => {
            let shown = mapping::shown_of(l);
            (shown.x == x && shown.y == y) as u32
        }
        Err(_) => 0,
    }
}

fn edges() {
    show(b"edge 2 at 45.000", which(100, 45000, 2), 1);
    show(b"edge 7 at 45.000", which(100, 45000, 7), 2);
    show(b"edge 0, not crossed", which(100, 45000, 0), 0);
    show(b"edge 12, not in the network", which(100, 45000, 12), 0);
    show(
        b"edge 2 at 50.000, the middle's own level",
        which(100, 50000, 2),
        1,
    );
    show(b"edge 2 at 50.001", which(100, 50001, 2), 0);
}

fn refusals() {
    show(b"spacing 0 and level 0", which(0, 0, 2), 112);
    show(b"level 0", which(100, 0, 2), 115);
    show(b"level 150.000, over the middle", which(100, 150000, 2), 0);
    show(b"level 150.001", which(100, 150001, 2), 115);
}

fn fractions() {
    show(b"half way along edge 2", fraction_is(45000, 2, 0.5), 1);
    show(b"1/10000 along edge 2", fraction_is(40001, 2, 0.0001), 1);
    show(b"the far end of edge 2", fraction_is(50000, 2, 1.0), 1);
    show(b"none is 0", fraction_is(45000, 0, 0.0), 1);
}

fn places() {
    show(
        b"edge 2 lies at 1050, 2100",
        place_is(100, 45000, 2, 1050.0, 2100.0),
        1,
    );
    show(
        b"edge 7 lies at 1100, 2050",
        place_is(100, 45000, 7, 1100.0, 2050.0),
        1,
    );
    show(b"none lies at 0, 0", place_is(100, 45000, 0, 0.0, 0.0), 1);
}

// The rules adds the fraction to the index, multiplies by the spacing and adds the origin, each step rounded once.
// The spacing multiplied into both parts, steps rounded together, or the exact place would give 1010.661 and 2021.322.
fn steps() {
    show(
        b"edge 3 at 44.770, spacing 7, lies at 1010.6610000000001, 2007",
        place_is(7, 44770, 3, 1010.6610000000001, 2007.0),
        1,
    );
    show(
        b"edge 10 at 44.770, spacing 14, lies at 1014, 2021.3220000000001",
        place_is(14, 44770, 10, 1014.0, 2021.3220000000001),
        1,
    );
}
