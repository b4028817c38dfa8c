// What is to be compared.

/// From which time on, in units of the precision, a run is compared; `knows_all` where what it has must be known: else an x or z of it is no
/// difference. `last` is the last time that is driven; and how many steps and seconds the run may take.
#[derive(Clone, Copy)]
pub struct Bounds {
    pub from: u64,
    pub last: u64,
    pub knows_all: bool,
    pub steps: u64,
    pub seconds: u64,
}

/// The files, the testbench first; its module and the instance in it; the dump, and the path of the scope that is the instance.
#[derive(Clone, Copy)]
pub struct Asked<'a> {
    pub texts: &'a [Vec<u8>],
    pub top: &'a [u8],
    pub instance: &'a [u8],
    pub dump: &'a str,
    pub scope: &'a [u8],
    pub bounds: Bounds,
}
