//! The messages of a list of fragments.

ghost use Rattle.std.specs.Prelude.{◌≡◌, ◌++◌, IfOk, OnOk};
ghost use Rattle.std.specs.List.{All};
ghost use Rattle.ble_fragments.specs.Whole.{whole};
ghost use Rattle.plain_wallet.specs.Joined.{ending_heard, messages_heard};
ghost use Rattle.plain_wallet.specs.Rounds.{IsShort};

use ble_fragments::{Arrival, Ending, MessageJoiner};
use mdoc_outside::{Fragment, Memory, Octets};
use std::alloc::Global;

/// The messages of a list of fragments, and how the list ends.
#[derive(Drop)]
pub(crate) struct MessageList {
    /// The messages, in order.
    pub messages: Vec<Octets>,
    /// How the list ends.
    pub ending: Ending,
}

impl MessageList {
    /// Adds what a further fragment brings.
    fn add(&mut self, arrival: Arrival) -> Result<(), Memory>
        ensures messages { OnOk result (self.new.messages.items ≡ self.old.messages.items ++ messages_heard arrival) }
        ensures ending { OnOk result (self.new.ending ≡ ending_heard arrival) }
    {
        match arrival {
            Arrival::Message(message) => {
                self.messages.push(message)?;
                self.ending = Ending::Open;
            }
            Arrival::Nothing(ending) => self.ending = ending,
        }
        Ok(())
    }
}

/// The messages of a list of fragments (ISO/IEC 18013-5, 8.3.3.1.1), none of which is longer than a session opens.
pub(crate) fn join_messages(alloc: Global, fragments: &[Fragment]) -> Result<MessageList, Memory>
    ensures messages { IfOk result (λ list. list.messages.items ≡ (whole fragments.now).messages) }
    ensures ending { IfOk result (λ list. list.ending ≡ (whole fragments.now).ending) }
    ensures short { IfOk result (λ list. All IsShort list.messages.items) }
{
    let mut message_joiner = MessageJoiner::new(alloc);
    let mut list = MessageList {
        messages: Vec::new(alloc),
        ending: Ending::Open,
    };
    for fragment in fragments {
        let arrival = message_joiner.join(fragment)?;
        list.add(arrival)?;
    }
    Ok(list)
}
