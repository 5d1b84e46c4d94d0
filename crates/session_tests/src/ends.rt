//! Both ends of a session with toy devices, and each step of a session.

use key_device::{KeyDevice, Made, Point, Recorder, ToyDevice};
use mdoc_outside::Octets;
use session_seal::{
    ReaderAnswered, ReaderEngaged, ReaderReady, ReaderWaiting, WalletAsked, WalletEngaged,
    WalletOpen,
};
use std::alloc::Global;

pub(crate) type Toy = Recorder<ToyDevice>;

const ENGAGEMENT: &[u8] = b"\xa1\x00\x63\x31\x2e\x30";

const HANDOVER: &[u8] = b"\xf6";

/// The devices, each with a new key, and what both ends know before the first message.
#[derive(Drop)]
pub(crate) struct Ends {
    pub wallet: WalletEngaged,
    pub wallet_device: Toy,
    pub reader: ReaderEngaged,
    pub reader_device: Toy,
}

fn copy_of(alloc: Global, bytes: &[u8]) -> Option<Octets> {
    Octets::copy_of(alloc, bytes).ok()
}

fn wallet_of(alloc: Global, own: u32) -> Option<WalletEngaged> {
    let engagement = copy_of(alloc, ENGAGEMENT)?;
    let handover = copy_of(alloc, HANDOVER)?;
    Some(WalletEngaged::new(engagement, handover, own))
}

fn reader_of(alloc: Global, peer: Point, made: Made) -> Option<ReaderEngaged> {
    let engagement = copy_of(alloc, ENGAGEMENT)?;
    let handover = copy_of(alloc, HANDOVER)?;
    Some(ReaderEngaged::new(engagement, handover, peer, made))
}

fn toy_of(alloc: Global, owner: u64, first: u32) -> Toy {
    Recorder::new(alloc, ToyDevice::new(7, owner, first))
}

fn made_by(device: &mut Toy) -> Option<Made> {
    device.fresh().ok()
}

pub(crate) fn both_ends(alloc: Global) -> Option<Ends> {
    let mut wallet_device = toy_of(alloc, 1, 5);
    let mut reader_device = toy_of(alloc, 2, 9);
    let own = made_by(&mut wallet_device)?;
    let made = made_by(&mut reader_device)?;
    Some(Ends {
        wallet: wallet_of(alloc, own.key)?,
        wallet_device,
        reader: reader_of(alloc, own.public, made)?,
        reader_device,
    })
}

/// The reader with the keys that it agreed on.
pub(crate) fn agreed(
    alloc: Global,
    reader: ReaderEngaged,
    device: &mut Toy,
) -> Option<ReaderReady> {
    reader.agree(alloc, device).ok()
}

/// The first message, with an empty text.
fn first_sent(alloc: Global, ready: ReaderReady) -> Option<(ReaderWaiting, Octets)> {
    ready.first(alloc, b"").ok()
}

/// The wallet that opened the first message, and its text.
fn first_opened(
    alloc: Global,
    wallet: WalletEngaged,
    message: &[u8],
    device: &mut Toy,
) -> Option<(WalletAsked, Octets)> {
    if message.len() > 1 << 24 {
        return None;
    }
    wallet.establish(alloc, message, device).ok()
}

pub(crate) fn request_sent(
    alloc: Global,
    reader: ReaderAnswered,
    text: &[u8],
) -> Option<(ReaderWaiting, Octets)> {
    if reader.place() > 1000 || text.len() > 1 << 24 {
        return None;
    }
    reader.seal_next(alloc, text).ok()
}

pub(crate) fn request_opened(
    alloc: Global,
    wallet: WalletOpen,
    message: &[u8],
) -> Option<(WalletAsked, Octets)> {
    if wallet.place() > 1000 || message.len() > 1 << 24 {
        return None;
    }
    wallet.open_next(alloc, message).ok()
}

fn answer_sent(
    alloc: Global,
    wallet: WalletAsked,
    text: &[u8],
    last: bool,
) -> Option<(WalletOpen, Octets)> {
    if wallet.place() > 1000 || text.len() > 1 << 24 {
        return None;
    }
    wallet.seal_next(alloc, text, last).ok()
}

fn answer_opened(
    alloc: Global,
    reader: ReaderWaiting,
    message: &[u8],
) -> Option<(ReaderAnswered, Octets)> {
    if reader.place() > 1000 || message.len() > 1 << 24 {
        return None;
    }
    reader.open_next(alloc, message).ok()
}

/// Both ends after a request, its message, and the text that was opened.
#[derive(Drop)]
pub(crate) struct Requested {
    pub wallet: WalletAsked,
    pub reader: ReaderWaiting,
    pub message: Octets,
    pub text: Octets,
}

/// Both ends after an answer, its message, and the text that was opened.
#[derive(Drop)]
pub(crate) struct Answered {
    pub wallet: WalletOpen,
    pub reader: ReaderAnswered,
    pub message: Octets,
    pub text: Octets,
}

pub(crate) fn first_request(alloc: Global) -> Option<Requested> {
    let Ends {
        wallet,
        mut wallet_device,
        reader,
        mut reader_device,
    } = both_ends(alloc)?;
    let ready = agreed(alloc, reader, &mut reader_device)?;
    let (reader, message) = first_sent(alloc, ready)?;
    let (wallet, text) = first_opened(alloc, wallet, message.as_slice(), &mut wallet_device)?;
    Some(Requested {
        wallet,
        reader,
        message,
        text,
    })
}

pub(crate) fn next_request(alloc: Global, ends: Answered, text: &[u8]) -> Option<Requested> {
    let Answered {
        wallet,
        reader,
        message: _,
        text: _,
    } = ends;
    let (reader, message) = request_sent(alloc, reader, text)?;
    let (wallet, text) = request_opened(alloc, wallet, message.as_slice())?;
    Some(Requested {
        wallet,
        reader,
        message,
        text,
    })
}

pub(crate) fn next_answer(
    alloc: Global,
    ends: Requested,
    text: &[u8],
    last: bool,
) -> Option<Answered> {
    let Requested {
        wallet,
        reader,
        message: _,
        text: _,
    } = ends;
    let (wallet, message) = answer_sent(alloc, wallet, text, last)?;
    let (reader, text) = answer_opened(alloc, reader, message.as_slice())?;
    Some(Answered {
        wallet,
        reader,
        message,
        text,
    })
}
