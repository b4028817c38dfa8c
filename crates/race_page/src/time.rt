// Times of slots, between marks.

use crate::html::put;
use basis::NoMemory;
use finding_text::put_time;
use vdesign::design::Design;

/// The time, between these marks.
pub(crate) fn put_at(
    page: &mut Vec<u8>,
    design: &Design,
    before: &str,
    time: u64,
    after: &str,
) -> Result<(), NoMemory> {
    put(page, before)?;
    put_time(page, design, time)?;
    put(page, after)
}
