// What takes texts, one after another.

ghost use Rattle.std.specs.Prelude.{ℕ, List, OnOk, IfErr};
ghost use Rattle.byte_sinks.specs.ByteSinks.{IsByteSink, Stopped};

use basis::OrMemory;

/// What takes texts, one after another: a writer, what counts them, or what compares them with a text.
pub trait ByteSink {
    type Fault: Drop;

    /// What taking this text makes of the byte sink.
    ghost takes: { Self → List ℕ → Self → Type 0 };

    /// What this fault makes of the byte sink, somewhere in this text.
    ghost fails: { Self → List ℕ → Self.Fault → Self → Type 0 };

    /// Takes the next text.
    fn put(&mut self, text: &[u8]) -> Result<(), Self::Fault>
        ensures ok { OnOk result (takes self.old text.now self.new) }
        ensures err { IfErr result (λ fault. fails self.old text.now fault self.new) };

    /// Whether it has all that it is to hold. It may take more all the same.
    fn is_full(&self) -> bool {
        false
    }

    /// Nothing changes nothing, texts may come joined, and a fault in a text is one in it with more around it.
    ghost lawful: { IsByteSink takes fails };
}

/// Hands the text to the byte sink, for callers that may want memory too: a fault is the byte sink's.
pub fn put<O: ByteSink>(byte_sink: &mut O, text: &[u8]) -> Result<(), OrMemory<O::Fault>>
    ensures ok { OnOk result (O.takes byte_sink.old text.now byte_sink.new) }
    ensures err { IfErr result (λ fault.
        Stopped O.takes O.fails byte_sink.old text.now fault byte_sink.new) }
{
    match byte_sink.put(text) {
        Ok(()) => Ok(()),
        Err(fault) => Err(OrMemory::Fault(fault)),
    }
}
