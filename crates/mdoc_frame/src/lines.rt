// Printed lines.
ghost use Rattle.mdoc_frame.specs.Steps.{Prints};

use crate::Status;
use mdoc_outside::{Octets, Sink, SinkFault};

/// Prints the lines, each by one put, and then answers the status.
pub fn print_lines<O: Sink>(lines: &[Octets], status: Status, out: &mut O) -> Status
    ensures { Prints lines.now status (O.state out.old) (O.state out.new) result }
{
    for line in lines {
        match out.put(line.as_slice()) {
            Ok(()) => {}
            Err(SinkFault::Failed) => return Status::Sink,
            Err(SinkFault::Memory) => return Status::Memory,
        }
    }
    status
}
