// What a search is asked for, as options of the library's calls.

use command_line::{Allowance, Request, Search};
use vrace::{Fault, Options};

/// How many entries a search may have of which nothing is said; for a replay, which doesn't read it, too.
pub const ENTRIES: u64 = 100_000;

/// E404 where a number is out of its limit.
pub fn check_limits(allowance: &Allowance) -> Result<(), Fault> {
    if allowance.is_within_limits() {
        Ok(())
    } else {
        Err(Fault::OutOfLimit)
    }
}

/// The options of a search of this top module up to this time, if each number is within its limit.
pub fn options_for<'a>(
    request: &Request<'_>,
    search: &Search,
    top: Option<&'a str>,
    until: u64,
) -> Result<Options<'a>, Fault> {
    let mut options = Options::new(
        top.map(|name| name.as_bytes()),
        until,
        search.depart,
        request.steps,
        search.entries.unwrap_or(ENTRIES),
        request.grain,
    )?;
    options.look(request.departures, search.looked);
    if let Some(allowance) = search.allowance {
        check_limits(&allowance)?;
        if search.entries.is_none() {
            options.visit_any_entries();
        }
    }
    Ok(options)
}
