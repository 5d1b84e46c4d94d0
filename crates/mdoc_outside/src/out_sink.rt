// A sink that is standard output.
ghost use Rattle.std.specs.Prelude.{None};

use crate::{Sink, SinkFault};
use std::io::{self, Write};

/// Standard output. It doesn't tell what it has taken.
#[derive(Drop)]
pub struct OutSink<P: Print + Drop> {
    rt: P,
    faults: u64,
}

impl<P: Print + Drop> OutSink<P> {
    /// The standard output that the runtime reaches.
    pub fn new(rt: P) -> OutSink<P> {
        OutSink { rt, faults: 0 }
    }
}

impl<P: Print + Drop> Sink for OutSink<P> {
    ghost state = { λ s. record { told = None; faults = s.faults } };

    fn put(&mut self, bytes: &[u8]) -> Result<(), SinkFault> {
        match io::writer(&self.rt).write_all(bytes) {
            Ok(()) => Ok(()),
            Err(_) => {
                self.faults = self.faults.saturating_add(1);
                Err(SinkFault::Failed)
            }
        }
    }
}
