// What a dump tells behind its declarations (18.2.1).

/// What is told: a time, in units of the dump; the value of the variables of a code, by its digits, leftmost first, `0`, `1`, `x` or `z` in
/// either case; from where on values aren't known; and where they are known again.
#[derive(Drop)]
pub enum VcdItem {
    Time(u64),
    Value { code: Vec<u8>, digits: Vec<u8> },
    Off,
    On,
}
