// The two statements that race.

/// What both statements touch: the variable of this number, or a named event.
#[derive(Clone, Copy)]
pub enum Touched {
    Variable(usize),
    Event,
}

/// One of two statements that race: whether it is an update that a nonblocking assignment posted; the place of its action in the design's
/// table; that of the statement behind it where its action is a port connection or an `assign`, else the same place; and which step it is in
/// the run under the log and in its parent, none where it doesn't come.
#[derive(Clone, Copy)]
pub struct RacingStatement {
    pub is_update: bool,
    pub action: usize,
    pub statement: usize,
    pub in_run: Option<u32>,
    pub in_parent: Option<u32>,
}

/// The two statements that race, and what both touch, each thing once. `first` comes first in the parent, the run under the log without its
/// last member; `second` comes first in the run under the log.
pub struct Statements {
    pub first: RacingStatement,
    pub second: RacingStatement,
    pub touched: Vec<Touched>,
}

impl Drop for Statements {
    fn drop(self) {
        let Statements {
            first: _,
            second: _,
            touched: _,
        } = self;
    }
}
