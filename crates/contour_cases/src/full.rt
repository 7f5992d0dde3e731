// A network of full size.
use crate::front;
use cases::show::say;
use network::Frame;
use network::limits::MAX_EDGES;

// A checkerboard of 256 by 256 points, whose every square is a saddle that cuts off its in corners: an open contour
// around each border point that is in, and a closed one around each inner one.
pub(crate) fn full_size() {
    let mut levels = [40000u32; 65536];
    checker(&mut levels);
    let mut edges = [9u32; MAX_EDGES];
    let mut counts = [9u32; MAX_EDGES];
    let mut closed = [9u32; MAX_EDGES];
    let mut sizes = [0u32; 2];
    trace(&levels, &mut edges, &mut counts, &mut closed, &mut sizes);
    front(&sizes, 2);
    say(b"= 130560 32768\n");
}

fn trace(
    levels: &[u32],
    edges: &mut [u32],
    counts: &mut [u32],
    closed: &mut [u32],
    sizes: &mut [u32],
) {
    let frame = Frame {
        columns: 256,
        rows: 256,
        spacing: 100,
        west: 0,
        south: 0,
    };
    let _ = contour::contours(levels, frame, 60000, edges, counts, closed, sizes);
}

fn checker(levels: &mut [u32]) {
    for (i, level) in levels.iter_mut().enumerate() {
        *level = shade(i);
    }
}

// A point whose row and column add up to an even number has 70.000, another 40.000.
fn shade(i: usize) -> u32 {
    if (i / 256 + i % 256) % 2 == 0 {
        70000
    } else {
        40000
    }
}
