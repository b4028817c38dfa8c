// Case statements (IEEE 1364-2005, 9.5).

/// How a case compares its value with a label (9.5).
#[derive(Clone, Copy, PartialEq, Eq)]
pub enum CaseKind {
    /// `case`: letter by letter, x and z too
    Exact,
    /// `casez`: z counts as any letter (9.5.1)
    Z,
    /// `casex`: x and z count as any letter (9.5.1)
    X,
}
