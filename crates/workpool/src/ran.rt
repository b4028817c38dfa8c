// What is left when the workers of a search have ended.

use crate::deque::Owner;
use shardbook::{BookIdentity, Pass, SearchParameters, Seen};
use statebook::Reason;

/// What is left when the workers of a search have ended: how many entries they opened and shut; how
/// many jobs they gave and took; the deques of these jobs, to whose owners all thieves' ends were given
/// back; why they stopped short, if they did; what shows the root's entry; and the pass, with the New
/// answers of all of them.
#[derive(Drop)]
pub struct Ran<S, Q: SearchParameters<S>, B: BookIdentity> {
    pub opens: u64,
    pub shuts: u64,
    pub given: u64,
    pub taken: u64,
    pub deques: Vec<Owner>,
    pub cut: Option<Reason>,
    pub root: Option<Seen<S, Q, B>>,
    pub pass: Pass<B>,
}
