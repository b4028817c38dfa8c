// What a book answers on meeting an entry.

use crate::parameters::{BookIdentity, SearchParameters};
use crate::seen::Seen;

/// What a book answers on meeting an entry: what shows it where it was put, or what shows an
/// entry that dominates it.
#[derive(Drop)]
pub enum Met<S, Q: SearchParameters<S>, B: BookIdentity> {
    New(Seen<S, Q, B>),
    Known(Seen<S, Q, B>),
}
