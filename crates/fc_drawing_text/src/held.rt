//! The grains that a slot holds, as text.

use crate::text::Text;

/// The most grains that are marked one by one.
const MOST_MARKS: usize = 64;

/// How many of these are held.
pub(crate) fn count_held(held: &[bool]) -> u64 {
    let mut count: u64 = 0;
    for mark in held {
        count = count.saturating_add(u64::from(*mark));
    }
    count
}

/// Adds how many of all are held.
pub(crate) fn put_share(held: &[bool], text: &mut Text) {
    text.add_count(b"", count_held(held));
    text.add_count(b" of ", held.len() as u64);
}

/// Adds which grains are held: of few a mark for each, `#` where it is held and `.` where it isn't; of many how many.
pub(crate) fn put_held(held: &[bool], text: &mut Text) {
    if held.len() > MOST_MARKS {
        return put_share(held, text);
    }
    let mut marks = [b'.'; MOST_MARKS];
    for place in 0..held.len() {
        if held[place] {
            marks[place] = b'#';
        }
    }
    text.add(&marks[..held.len()]);
}
