//! What a wallet comes to over all the fragments that came.

ghost use Rattle.std.specs.Prelude.{◌≡◌, ◌++◌, IfOk, OnOk, Some};
ghost use Rattle.std.specs.Option.{option_to_list};
ghost use Rattle.wallet_model.specs.Wallet.{closed, end_by_list, or_by_list, peer_end};
ghost use Rattle.plain_wallet.specs.Running.{IsRunOf};

use crate::plain_round::{PlainRound, end_of_rounds};
use ble_fragments::Ending;
use mdoc_outside::{Memory, Octets, Rows};
use session_seal::WalletEnd;
use std::alloc::Global;
use wallet_answer::append_released;
use wallet_model::ReleasedAt;

/// What a wallet comes to over all the fragments that came, after which the link was closed.
#[derive(Drop)]
pub struct PlainRun {
    /// The bytes of the engagement.
    pub engagement: Octets,
    /// The messages that are sent, in order.
    pub replies: Rows<Octets>,
    /// The places of all that was released, in the order of the answers.
    pub released: Rows<ReleasedAt>,
    /// How the session ended.
    pub end: WalletEnd,
}

/// The end by a reader that went away: before or after a reply.
fn peer_end(replies: &[Octets]) -> WalletEnd
    ensures { result ≡ peer_end replies.now }
{
    if replies.is_empty() {
        WalletEnd::NoSession
    } else {
        WalletEnd::PeerEnded
    }
}

/// The end by how the list of fragments ends; a link that is closed is as an end of the peer.
fn end_by_list(replies: &[Octets], ending: Ending) -> WalletEnd
    ensures { Some result ≡ end_by_list replies.now (closed ending) }
{
    match ending {
        Ending::Open | Ending::Peer => peer_end(replies),
        Ending::Bad(fault) => WalletEnd::BadFragment(fault),
    }
}

/// The end by which a round ended the session; where none did, the end by how the list of fragments ends.
fn end_of_run(ended: Option<WalletEnd>, replies: &[Octets], ending: Ending) -> WalletEnd
    ensures { Some result ≡ or_by_list ended replies.now (closed ending) }
{
    match ended {
        Some(end) => end,
        None => end_by_list(replies, ending),
    }
}

/// Adds a reply after others, if there is one.
fn add_reply(replies: &mut Vec<Octets>, reply: Option<Octets>) -> Result<(), Memory>
    ensures { OnOk result (replies.new.items ≡ replies.old.items ++ option_to_list reply) }
{
    match reply {
        Some(message) => {
            replies.push(message)?;
            Ok(())
        }
        None => Ok(()),
    }
}

/// What rounds come to, after what was announced, where the list of fragments ends so.
pub(crate) fn run_of(
    alloc: Global,
    engagement: Octets,
    rounds: Vec<PlainRound>,
    ending: Ending,
) -> Result<PlainRun, Memory>
    ensures { IfOk result (λ run. IsRunOf engagement rounds.items ending run) }
{
    let ended = end_of_rounds(&rounds);
    let mut replies = Vec::new(alloc);
    let mut released = Vec::new(alloc);
    for round in rounds {
        let PlainRound { reply, places, .. } = round;
        add_reply(&mut replies, reply)?;
        append_released(&mut released, places)?;
    }
    let end = end_of_run(ended, &replies, ending);
    Ok(PlainRun {
        engagement,
        replies: Rows::from_vec(replies),
        released: Rows::from_vec(released),
        end,
    })
}
