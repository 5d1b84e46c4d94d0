//! What a further fragment brings.

ghost use Rattle.std.specs.Prelude.{◌≡◌};
ghost use Rattle.ble_fragments.specs.Arrivals.{fault_arrival, arrival_in, arrival_of};

use crate::ending::Ending;
use crate::fed::Fed;
use crate::join_fault::JoinFault;
use mdoc_outside::{Memory, Octets};

/// What a further fragment brings to the fragments before it.
#[derive(Drop)]
pub enum Arrival {
    /// A whole message, after which more may follow.
    Message(Octets),
    /// No message; the fragments then end so.
    Nothing(Ending),
}

/// What a joiner's answer brings.
pub(crate) fn arrival_of(fed: Result<Fed, JoinFault>) -> Result<Arrival, Memory>
    ensures { result ≡ arrival_of fed }
{
    match fed {
        Ok(fed) => Ok(arrival_in(fed)),
        Err(fault) => fault_arrival(fault),
    }
}

fn arrival_in(fed: Fed) -> Arrival
    ensures { result ≡ arrival_in fed }
{
    match fed {
        Fed::Message(message) => Arrival::Message(message),
        Fed::More => Arrival::Nothing(Ending::Open),
        Fed::Started => Arrival::Nothing(Ending::Open),
        Fed::Ended => Arrival::Nothing(Ending::Peer),
    }
}

fn fault_arrival(fault: JoinFault) -> Result<Arrival, Memory>
    ensures { result ≡ fault_arrival fault }
{
    match fault {
        JoinFault::Memory => Err(Memory),
        bad => Ok(Arrival::Nothing(Ending::Bad(bad))),
    }
}
