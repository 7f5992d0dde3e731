// Which argument is refused, for the sentence on standard error.
use channel::words::argument;
use contours_steps::words::contour_of;
use refusal::Refusal;
use said_contours::of_words;

// Whether argument i is a contour level.
fn fits(rt: &HostRuntime, i: usize) -> bool {
    let mut word = [0u8; 16];
    let n = argument(rt, i, &mut word);
    contour_of(&word[..n]).is_some()
}

// The first argument that is none, or the last.
fn first_off(rt: &HostRuntime, count: usize) -> usize {
    (1..=count).find(|i| !fits(rt, *i)).unwrap_or(count)
}

// Argument i is refused.
fn word_off(rt: &HostRuntime, i: usize) {
    let mut word = io::buffer();
    let n = argument(rt, i, &mut word);
    of_words::refused(i, &word[..n]);
}

// The arguments are refused, of which there are `count`.
pub(crate) fn words_off(rt: &HostRuntime, why: Refusal, count: usize) {
    match (why, count) {
        (Refusal::TooLittleRoom, _) => of_words::too_many(count),
        (_, 0) => of_words::too_few(),
        _ => word_off(rt, first_off(rt, count)),
    }
}
