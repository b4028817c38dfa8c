// Why a search that goes by rank isn't gone on with.

/// Why a search that goes by rank stops short, want of memory aside: there are as many entries as the limit, a
/// run takes more steps than the limit, or the watcher said so.
#[derive(Clone, Copy)]
pub enum Halt {
    Entries,
    Steps,
    Stopped,
}
