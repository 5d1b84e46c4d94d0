// The calls of a sink in memory.
ghost use Rattle.std.specs.Prelude.{◌≡◌, IfOk, OnOk, OnErr};
ghost use Rattle.mdoc_outside.specs.Sink.{bytes_put, with_call};
ghost use Rattle.mdoc_outside.specs.declared.sink_call.SinkCall.TheVariants.{Put, PutFailed};

use crate::{Memory, Octets, SinkCall};
use std::alloc::Global;
use std::marker::Model;

// The calls that were made.
#[derive(Drop)]
pub(crate) struct SinkLog {
    alloc: Global,
    calls: Vec<SinkCall>,
}

impl Model for SinkLog {
    ghost use Rattle.std.specs.Prelude.{List};
    ghost use Rattle.mdoc_outside.specs.declared.sink_call.SinkCall.{SinkCall};

    ghost Value = { List SinkCall };

    ghost view = { λ log. log.calls.items };
}

impl SinkLog {
    ghost use Rattle.std.specs.Prelude.{[]};

    pub(crate) fn new(alloc: Global) -> SinkLog
        ensures { result ≡ [] }
    {
        SinkLog {
            alloc,
            calls: Vec::new(alloc),
        }
    }

    pub(crate) fn calls(&self) -> &[SinkCall]
        ensures { result.now ≡ self.now }
    {
        &self.calls
    }

    // The bytes that were put, joined.
    pub(crate) fn bytes(&self) -> Result<Octets, Memory>
        ensures { IfOk result (λ bytes. bytes ≡ bytes_put self.now) }
    {
        let mut joined = Vec::new(self.alloc);
        for call in self.calls() {
            if let SinkCall::Put(bytes) = call {
                joined.extend_from_slice(bytes.as_slice())?;
            }
        }
        Ok(Octets::from_vec(joined))
    }

    // Tells a put.
    pub(crate) fn put(&mut self, bytes: &[u8]) -> Result<(), Memory>
        ensures told { OnOk result (self.new ≡ with_call (Put bytes.now) self.old) }
        ensures out_of_memory { OnErr result (self.new ≡ self.old) }
    {
        let bytes = Octets::copy_of(self.alloc, bytes)?;
        self.calls.push(SinkCall::Put(bytes))?;
        Ok(())
    }

    // Tells a put that failed.
    pub(crate) fn fail_put(&mut self, bytes: &[u8]) -> Result<(), Memory>
        ensures told { OnOk result (self.new ≡ with_call (PutFailed bytes.now) self.old) }
        ensures out_of_memory { OnErr result (self.new ≡ self.old) }
    {
        let bytes = Octets::copy_of(self.alloc, bytes)?;
        self.calls.push(SinkCall::PutFailed(bytes))?;
        Ok(())
    }
}
