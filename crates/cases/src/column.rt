// Columns of many rows.

// Every value of a column from an index on, each `gap` further: the first, and each time a step more.
pub fn stepped(column: &mut [u32], from: usize, first: u32, step: u32, gap: usize) {
    if gap == 0 {
        return;
    }
    let mut value = first;
    for place in column.iter_mut().skip(from).step_by(gap) {
        *place = value;
        value = value.wrapping_add(step);
    }
}
