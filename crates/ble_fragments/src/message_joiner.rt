//! The fragments that came, joined.

use crate::arrival::{Arrival, arrival_of};
use crate::joiner::Joiner;
use mdoc_outside::{Fragment, Memory};
use std::alloc::Global;
use std::marker::Model;

/// The fragments that came, joined. What is kept of them is what a joiner keeps.
#[derive(Drop)]
pub struct MessageJoiner {
    joiner: Joiner,
}

impl Model for MessageJoiner {
    ghost use Rattle.std.specs.Prelude.{List};
    ghost use Rattle.ble_fragments.specs.Joins.{Joined, Joins};
    ghost use Rattle.mdoc_outside.specs.declared.fragment.Fragment.{Fragment};

    ghost Value = { Joined };

    ghost view = { λ j. j.joiner };

    ghost invariant = { λ j. (came : List Fragment) × Joins came j.joiner };
}

impl MessageJoiner {
    ghost use Rattle.std.specs.Prelude.{◌≡◌, [], List, false, IfOk, OnErr};
    ghost use Rattle.ble_fragments.specs.Joins.{Joins};
    ghost use Rattle.mdoc_outside.specs.declared.fragment.Fragment.{Fragment as Came};
    ghost use Rattle.ble_fragments.specs.Arrivals.{Brings, IsShort, NoMessage, is_last};

    /// No fragment came yet; takes no memory.
    pub fn new(alloc: Global) -> MessageJoiner
        ensures { Joins [] result }
    {
        MessageJoiner {
            joiner: Joiner::new(alloc),
        }
    }

    /// An equal one.
    pub fn again(&self) -> Result<MessageJoiner, Memory>
        ensures { IfOk result (λ message_joiner. message_joiner ≡ self.now) }
    {
        let joiner = self.joiner.again()?;
        Ok(MessageJoiner { joiner })
    }

    /// Joins a further fragment. Where memory is wanting it is as it was.
    pub fn join(&mut self, fragment: &Fragment) -> Result<Arrival, Memory>
        ensures brings { (came : List Came) → Joins came self.old → IfOk result (λ arrival. Brings came fragment.now arrival self.new) }
        ensures short { IfOk result (λ arrival. IsShort arrival) }
        ensures part { is_last fragment.now ≡ false → IfOk result (λ arrival. NoMessage arrival) }
        ensures memory { OnErr result (self.new ≡ self.old) }
    {
        arrival_of(self.joiner.feed(fragment))
    }
}
