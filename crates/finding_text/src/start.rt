// What is said of races that show at time 0.

/// What stands before them.
pub const START: &[u8] = b"at time 0, before anything has happened:";

/// What stands behind them: how most of them are cured.
pub const START_CURE: &[u8] =
    b"Most of these are cured where the others wait: `#1`, or an edge that comes later. A value in a declaration is an `initial` of its own.";
