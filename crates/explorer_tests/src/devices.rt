// Texts that are held, and readers that fail.

use byte_sinks::{ByteSink, Full, HeldText, Metered};
use std::io;
use std::io::Read;
use std::test::Fail;

// Fails at each call.
#[derive(Drop)]
struct Broken;

impl Read for Broken {
    fn read(&mut self, _buf: &mut [u8]) -> io::Result<usize> {
        Err(io::Error::from(io::ErrorKind::BrokenPipe))
    }
}

// Eight bytes have room for two pieces of four. A byte more makes the text full, but it is held all the same, as a mebibyte is; past that
// nothing is.
#[test]
fn held_to_the_last_byte(rt: HostRuntime) -> Result<(), Fail> {
    let mut held = HeldText::new(rt.alloc(), 8);
    assert!(rt; held.text().is_empty());
    let taken = held.put(b"#12\n").is_ok() && held.put(b"").is_ok() && held.put(b"b1 !").is_ok();
    assert!(rt; taken && held.text() == b"#12\nb1 !".as_slice() && !held.is_full());
    assert!(rt;
        held.put(b"\n").is_ok() && held.text() == b"#12\nb1 !\n".as_slice() && held.is_full()
    );
    let mut long = Vec::new(rt.alloc());
    long.resize(1_048_576, b'x')?;
    assert!(rt; held.put(&long) == Err(Full));
    long.resize(1_048_575, b'x')?;
    assert!(rt; held.put(&long).is_ok() && held.text().len() == 1_048_584);
    Ok(())
}

#[test]
fn failures_of_reads(rt: HostRuntime) -> Result<(), Fail> {
    let mut room = [0; 4];
    let mut failing = Metered::new(Broken);
    assert!(rt; failing.read(&mut room).is_err() && failing.failures() == 1);
    let mut reader = Metered::new(&b"abc"[..]);
    assert!(rt; reader.read(&mut room).ok() == Some(3) && reader.failures() == 0);
    Ok(())
}
