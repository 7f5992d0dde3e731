// The header lines of a register and of limits.csv: a fixed text, cut off after its last point.
ghost use Rattle.std.specs.Prelude.{◌≡◌};
ghost use Rattle.register.specs.Header.{header_of, register_header, register_lead, limits_header, limits_lead};

use movement::limits::MAX_POINTS;

// The bytes before their points: id,type,mtow,kind,time and days.
const REGISTER_LEAD: usize = 22;

const LIMITS_LEAD: usize = 4;

// The number of points in a line that is the header `full` up to some point; `lead` bytes stand before the points.
fn header_points(s: &[u8], full: &[u8], lead: usize) -> Option<u32>
    ensures { result ≡ header_of full.now lead s.now }
{
    let n = s.len();
    if n <= lead || (n - lead) % 3 != 0 {
        return None;
    }
    let points = (n - lead) / 3;
    if points <= MAX_POINTS && full.starts_with(s) {
        Some(points as u32)
    } else {
        None
    }
}

// The number of points in a register's header; off is 16.
pub fn register_points(s: &[u8]) -> Option<u32>
    ensures { result ≡ header_of register_header register_lead s.now }
{
    header_points(
        s,
        b"id,type,mtow,kind,time,l1,l2,l3,l4,l5,l6,l7,l8",
        REGISTER_LEAD,
    )
}

// The number of points in the header of limits.csv; off is 16.
pub fn limits_points(s: &[u8]) -> Option<u32>
    ensures { result ≡ header_of limits_header limits_lead s.now }
{
    header_points(s, b"days,p1,p2,p3,p4,p5,p6,p7,p8", LIMITS_LEAD)
}
