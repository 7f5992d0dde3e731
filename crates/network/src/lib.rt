// A network of levels: its frame and check, its edges by number, and which of them a contour crosses: RULES,
// "Network and contours".
#![tactic(auto)]

ghost use Rattle.std.specs.Prelude.{◌≡◌, ◌&&◌};
ghost use Rattle.refusal.specs.Refusal.{told};
ghost use Rattle.network.specs.Refusals.{between, sided, placed, filled, checked, contour_checked};

use crate::limits::{
    LEAST_CONTOUR, LEAST_SIDE, LEAST_SPACING, MAX_CONTOUR, MAX_ORIGIN, MAX_SIDE, MAX_SPACING,
};
use refusal::Refusal;

pub mod inner;
pub mod limits;

// A network's size in points, the spacing of its points and its south-west point, in whole metres.
#[derive(Clone, Copy)]
pub struct Frame {
    pub columns: u32,
    pub rows: u32,
    pub spacing: u32,
    pub west: u32,
    pub south: u32,
}

// An edge by the row and column of its west or south end.
#[derive(Clone, Copy)]
pub enum Edge {
    Horizontal(usize, usize),
    Vertical(usize, usize),
}

// Whether x lies from `low` to `high`.
fn lies_between(low: u32, x: u32, high: u32) -> bool
    ensures { result ≡ between low x high }
{
    (low..=high).contains(&x)
}

// Whether each side has 2 to 256 points.
pub fn is_sided(frame: Frame) -> bool
    ensures { result ≡ sided frame }
{
    lies_between(LEAST_SIDE, frame.columns, MAX_SIDE)
        && lies_between(LEAST_SIDE, frame.rows, MAX_SIDE)
}

// Whether the spacing and the south-west point are in their ranges.
pub fn is_placed(frame: Frame) -> bool
    ensures { result ≡ placed frame }
{
    lies_between(LEAST_SPACING, frame.spacing, MAX_SPACING)
        && frame.west <= MAX_ORIGIN
        && frame.south <= MAX_ORIGIN
}

// Whether there are as many levels as points.
fn is_filled(levels: &[u32], frame: Frame) -> bool
    ensures { result ≡ filled levels.now frame }
{
    levels.len() as u64 == frame.rows as u64 * frame.columns as u64
}

// Whether nothing of the network is 12.
fn is_whole(levels: &[u32], frame: Frame) -> bool
    ensures { result ≡ (sided frame && placed frame && filled levels.now frame) }
{
    is_sided(frame) && is_placed(frame) && is_filled(levels, frame)
}

// Refuses a network that isn't whole, or whose levels don't all lie up to `max`.
pub fn refusal(levels: &[u32], frame: Frame, max: u32) -> Result<(), Refusal>
    ensures { told result ≡ checked max levels.now frame 0 }
{
    if !is_whole(levels, frame) {
        return Err(Refusal::WrongNetwork);
    }
    if !refusal::all_within(levels, max) {
        return Err(Refusal::WrongNetworkLevel);
    }
    Ok(())
}

// Refuses such a network, or a contour level out of its range.
pub fn contour_refusal(levels: &[u32], frame: Frame, v: u32, max: u32) -> Result<(), Refusal>
    ensures { told result ≡ contour_checked max levels.now frame v 0 }
{
    refusal(levels, frame, max)?;
    if lies_between(LEAST_CONTOUR, v, MAX_CONTOUR) {
        return Ok(());
    }
    Err(Refusal::WrongLevelAsked)
}
