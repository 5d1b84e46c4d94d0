//! The wallet's end of a session.

ghost use Rattle.std.specs.Prelude.{◌≡◌, ◌≤◌, ◌^◌, [], List, false, IfOk, IsNone, OnErr, length};
ghost use Rattle.key_device.specs.Gave.{Gave};
ghost use Rattle.key_device.specs.Recording.{inner, talk};
ghost use Rattle.key_device.specs.declared.exchange.Exchange.{Exchange};
ghost use Rattle.mdoc_outside.specs.Dealt.{dealt, inner as dice_of};
ghost use Rattle.mdoc_outside.specs.GaveWords.{GaveWords};
ghost use Rattle.wallet_answer.specs.SetupView.{setup_of};
ghost use Rattle.wallet_model.specs.Stands as states;
ghost use Rattle.wallet_core.specs.Ends.{Cause};
ghost use Rattle.wallet_core.specs.Rounds.{IsWithin};
ghost use Rattle.wallet_model.specs.Taking.{IsLive};
ghost use Rattle.wallet_core.specs.Answering.{Answers, IsPlaced, Settles, first_left, next_left};
ghost use Rattle.ble_fragments.specs.Arrivals.{is_last};
ghost use Rattle.wallet_core.specs.NodeView.{node_in, node_seen};
ghost use Rattle.wallet_core.specs.NodeStarting.{IsNew, Starts};
ghost use Rattle.wallet_core.specs.Taking.{Closes, IsSameSetup, Listens, RestsAfterEnd, Takes, closed_end, closed_state};

use crate::first_message::first_round;
use crate::later_message::next_round;
use crate::node_room::{check_memory, keep_places};
use crate::round::Round;
use crate::start_fault::StartFault;
use crate::started::Started;
use crate::starting::start;
use crate::state::State;
use crate::waiting::Waiting;
use crate::want_of_memory::WantOfMemory;
use crate::{Announced, Reply};
use ble_fragments::{Arrival, Ending, MessageJoiner, may_end_message};
use key_device::{KeyDevice, Recorder};
use mdoc_outside::{Dealt, Dice, Fragment, Memory, Octets};
use session_seal::{WalletEnd, WalletEngaged, WalletOpen};
use std::alloc::Global;
use std::mem;
use wallet_answer::WalletSetup;
use wallet_model::ReleasedAt;

/// The wallet's end of one session.
#[derive(Drop)]
pub struct WalletNode<'a> {
    alloc: Global,
    setup: WalletSetup<'a>,
    engagement: Octets,
    state: State,
    message_joiner: MessageJoiner,
    released: Vec<ReleasedAt>,
}

impl<'a> WalletNode<'a> {
    /// Starts a session that a QR code announces (ISO/IEC 18013-5, 8.2.2.3): two words are drawn as the UUID of the peripheral
    /// server, and then the device is asked for a fresh key. It refuses where the device or the dice fail, and for want of
    /// memory.
    pub fn new<D: KeyDevice, R: Dice>(
        alloc: Global,
        setup: WalletSetup<'a>,
        dice: &mut Dealt<R>,
        device: &mut Recorder<D>,
    ) -> Result<WalletNode<'a>, StartFault>
        requires nfc { setup.nfc ≡ false }
        requires request { IsNone setup.request }
        ensures starts { Starts (setup_of setup.entry) (talk device.old) (talk device.new) (dealt dice.old) (dealt dice.new) result }
        ensures gave { Gave D.gives D.unasked D.faults device.old device.new }
        ensures words { GaveWords R.gives R.faults dice.old dice.new }
        ensures cause { Cause (D.faults (inner device.old)) (D.faults (inner device.new)) (R.faults (dice_of dice.old)) (R.faults (dice_of dice.new)) result }
    {
        match start(alloc, dice, device) {
            Ok(started) => Ok(WalletNode::of_start(alloc, setup, started)),
            Err(fault) => Err(fault),
        }
    }

    /// The node of a session that was started.
    fn of_start(alloc: Global, setup: WalletSetup<'a>, started: Started) -> WalletNode<'a>
        ensures { IsNew (setup_of setup.entry) started (node_seen result) }
    {
        let Started { engagement, state } = started;
        WalletNode {
            alloc,
            setup,
            engagement,
            state: State::Engaged(state),
            message_joiner: MessageJoiner::new(alloc),
            released: Vec::new(alloc),
        }
    }

    /// What is announced.
    pub fn announced(&self) -> Announced<'_>
        ensures engagement { result.engagement.now ≡ (node_seen self.now).engagement }
        ensures select { IsNone result.select }
    {
        Announced {
            engagement: self.engagement.as_slice(),
            select: None,
        }
    }

    /// The size of the fragments that are sent, 20 to 512 bytes.
    pub fn size(&self) -> u16
        ensures { result ≡ (node_seen self.now).setup.size }
    {
        self.setup.size
    }

    /// The places of all that was released, in the order of the answers.
    pub fn released(&self) -> &[ReleasedAt]
        ensures { result.now ≡ (node_seen self.now).released }
    {
        &self.released
    }

    /// Takes a further fragment (ISO/IEC 18013-5, 8.3.3.1.1): one that ends a message is answered. Where memory is wanting
    /// before a question the node is as it was, and may be handed the fragment again; after a question it is lost. A node
    /// whose session has ended, or is lost, answers no message and its end.
    pub fn take<D: KeyDevice>(
        &mut self,
        fragment: &Fragment,
        device: &mut Recorder<D>,
    ) -> Result<Reply, Memory>
        ensures takes { Takes (node_seen self.old) (talk device.old) fragment.now result (talk device.new) (node_seen self.new) }
        ensures rests { RestsAfterEnd (node_seen self.old) (talk device.old) result (talk device.new) (node_seen self.new) }
        ensures same { IsSameSetup (node_seen self.old) (node_seen self.new) }
        ensures gave { Gave D.gives D.unasked D.faults device.old device.new }
    {
        match self.state.over() {
            Some(end) => Ok(Reply {
                message: None,
                ended: Some(end),
            }),
            None => self.take_live(fragment, device),
        }
    }

    /// Takes a further fragment of a session that goes on. A joiner is copied only before a fragment that may end a message,
    /// since a long message would else be copied with each of its fragments.
    #[tactic(auto, using(key_device::proofs::GaveLemmas::gave_none))]
    fn take_live<D: KeyDevice>(
        &mut self,
        fragment: &Fragment,
        device: &mut Recorder<D>,
    ) -> Result<Reply, Memory>
        requires { IsLive (node_seen self.old).state }
        ensures takes { Takes (node_seen self.old) (talk device.old) fragment.now result (talk device.new) (node_seen self.new) }
        ensures same { IsSameSetup (node_seen self.old) (node_seen self.new) }
        ensures gave { Gave D.gives D.unasked D.faults device.old device.new }
    {
        if may_end_message(fragment) {
            self.take_last(fragment, device)
        } else {
            self.take_part(fragment)
        }
    }

    /// Takes a fragment that ends no message.
    fn take_part(&mut self, fragment: &Fragment) -> Result<Reply, Memory>
        requires live { IsLive (node_seen self.old).state }
        requires part { is_last fragment.now ≡ false }
        ensures takes { (told : List Exchange) → Takes (node_seen self.old) told fragment.now result told (node_seen self.new) }
        ensures same { IsSameSetup (node_seen self.old) (node_seen self.new) }
    {
        let arrival = self.message_joiner.join(fragment)?;
        match arrival {
            Arrival::Message(_) => unreachable!(),
            Arrival::Nothing(ending) => Ok(self.listen(ending)),
        }
    }

    /// Takes a fragment that may end a message.
    #[tactic(auto, using(key_device::proofs::GaveLemmas::gave_none))]
    fn take_last<D: KeyDevice>(
        &mut self,
        fragment: &Fragment,
        device: &mut Recorder<D>,
    ) -> Result<Reply, Memory>
        requires { IsLive (node_seen self.old).state }
        ensures takes { Takes (node_seen self.old) (talk device.old) fragment.now result (talk device.new) (node_seen self.new) }
        ensures same { IsSameSetup (node_seen self.old) (node_seen self.new) }
        ensures gave { Gave D.gives D.unasked D.faults device.old device.new }
    {
        let mut message_joiner = self.message_joiner.again()?;
        let arrival = message_joiner.join(fragment)?;
        match arrival {
            Arrival::Message(message) => self.answer(message_joiner, message.as_slice(), device),
            Arrival::Nothing(ending) => {
                self.message_joiner = message_joiner;
                Ok(self.listen(ending))
            }
        }
    }

    /// Goes on without a message, or ends as the fragments do.
    fn listen(&mut self, ending: Ending) -> Reply
        ensures { Listens (node_seen self.old) ending result (node_seen self.new) }
    {
        match self.state.list_end(ending) {
            None => Reply {
                message: None,
                ended: None,
            },
            Some(end) => {
                self.state = State::Ended(end);
                Reply {
                    message: None,
                    ended: Some(end),
                }
            }
        }
    }

    /// Answers a message in a round.
    #[tactic(auto, using(key_device::proofs::GaveLemmas::gave_none))]
    fn answer<D: KeyDevice>(
        &mut self,
        message_joiner: MessageJoiner,
        message: &[u8],
        device: &mut Recorder<D>,
    ) -> Result<Reply, Memory>
        requires live { IsLive (node_seen self.old).state }
        requires short { length message.now ≤ 2 ^ 24 }
        ensures answers { Answers (node_seen self.old) message.now (talk device.old) (talk device.new) message_joiner result (node_seen self.new) }
        ensures same { IsSameSetup (node_seen self.old) (node_seen self.new) }
        ensures gave { Gave D.gives D.unasked D.faults device.old device.new }
    {
        check_memory(self.alloc)?;
        match mem::replace(&mut self.state, State::Spent) {
            State::Engaged(engaged) => self.answer_first(engaged, message_joiner, message, device),
            State::Open(waiting) => self.answer_next(waiting, message_joiner, message, device),
            State::Ended(_) => unreachable!(),
            State::Spent => unreachable!(),
        }
    }

    /// Answers the first message, by the state that was taken out of the node.
    fn answer_first<D: KeyDevice>(
        &mut self,
        engaged: WalletEngaged,
        message_joiner: MessageJoiner,
        message: &[u8],
        device: &mut Recorder<D>,
    ) -> Result<Reply, Memory>
        requires lost { (node_seen self.old).state ≡ states.Spent }
        requires short { length message.now ≤ 2 ^ 24 }
        ensures answers { Answers (node_in (node_seen self.old) (states.Engaged engaged)) message.now (talk device.old) (talk device.new) message_joiner result (node_seen self.new) }
        ensures same { IsSameSetup (node_seen self.old) (node_seen self.new) }
        ensures gave { Gave D.gives D.unasked D.faults device.old device.new }
    {
        match first_round(self.alloc, &self.setup, engaged, message, device) {
            Ok(round) => self.settle(message_joiner, round),
            Err(wanting) => {
                self.restore_first(wanting);
                Err(Memory)
            }
        }
    }

    /// Answers a later message, by the state that was taken out of the node.
    fn answer_next<D: KeyDevice>(
        &mut self,
        waiting: Waiting,
        message_joiner: MessageJoiner,
        message: &[u8],
        device: &mut Recorder<D>,
    ) -> Result<Reply, Memory>
        requires lost { (node_seen self.old).state ≡ states.Spent }
        requires short { length message.now ≤ 2 ^ 24 }
        ensures answers { Answers (node_in (node_seen self.old) (states.Open waiting)) message.now (talk device.old) (talk device.new) message_joiner result (node_seen self.new) }
        ensures same { IsSameSetup (node_seen self.old) (node_seen self.new) }
        ensures gave { Gave D.gives D.unasked D.faults device.old device.new }
    {
        match next_round(
            self.alloc,
            &self.setup,
            waiting.into_open(),
            message,
            device,
        ) {
            Ok(round) => self.settle(message_joiner, round),
            Err(wanting) => {
                self.restore_next(wanting);
                Err(Memory)
            }
        }
    }

    /// Keeps what a round came to.
    fn settle(&mut self, joined: MessageJoiner, round: Round) -> Result<Reply, Memory>
        requires { IsWithin round.after }
        ensures settles { IfOk result (λ reply. Settles (node_seen self.old) joined round reply (node_seen self.new)) }
        ensures lost { OnErr result (((node_seen self.new).state ≡ (node_seen self.old).state) × ¬ (round.places.items ≡ [])) }
        ensures same { IsSameSetup (node_seen self.old) (node_seen self.new) }
    {
        let Round {
            reply,
            places,
            after,
        } = round;
        keep_places(&mut self.released, places)?;
        let ended = after.end();
        self.state = State::after(after);
        self.message_joiner = joined;
        Ok(Reply {
            message: reply,
            ended,
        })
    }

    /// Puts the state before the first message back, where it was handed back.
    fn restore_first(&mut self, wanting: WantOfMemory<WalletEngaged>)
        requires { (node_seen self.old).state ≡ states.Spent }
        ensures { node_seen self.new ≡ node_in (node_seen self.old) (first_left wanting) }
    {
        match wanting {
            WantOfMemory::Back(engaged) => self.state = State::Engaged(engaged),
            WantOfMemory::Spent => {}
        }
    }

    /// Puts the state before a later message back, where it was handed back.
    fn restore_next(&mut self, wanting: WantOfMemory<WalletOpen>)
        requires lost { (node_seen self.old).state ≡ states.Spent }
        requires within { IsPlaced wanting }
        ensures { node_seen self.new ≡ node_in (node_seen self.old) (next_left wanting) }
    {
        match wanting {
            WantOfMemory::Back(open) => self.state = State::Open(Waiting::new(open)),
            WantOfMemory::Spent => {}
        }
    }

    /// Says that no more fragments come, as where the link was closed: a session that goes on ends.
    pub fn close(&mut self) -> WalletEnd
        ensures closes { Closes (node_seen self.old) result }
        ensures result { result ≡ closed_end (node_seen self.old).state }
        ensures node { node_seen self.new ≡ node_in (node_seen self.old) (closed_state (node_seen self.old).state) }
    {
        match self.state {
            State::Engaged(_) => self.end_by(WalletEnd::NoSession),
            State::Open(_) => self.end_by(WalletEnd::PeerEnded),
            State::Ended(end) => end,
            State::Spent => WalletEnd::Spent,
        }
    }

    /// Ends the session.
    fn end_by(&mut self, end: WalletEnd) -> WalletEnd
        ensures node { node_seen self.new ≡ node_in (node_seen self.old) (states.Ended end) }
        ensures end { result ≡ end }
    {
        self.state = State::Ended(end);
        end
    }
}
