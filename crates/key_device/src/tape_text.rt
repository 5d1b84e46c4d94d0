// The text of a tape file.
ghost use Rattle.std.specs.Prelude.{◌≡◌, ◌++◌, OnOk, IfOk, codes, decimal};
ghost use Rattle.hex.specs.Hex.{encode_lower};
ghost use Rattle.key_device.specs.TapeText.{point_text, message_text, ask_text, told_text, line_text, tape_text};

use crate::{Ask, Exchange, Point, Told};
use mdoc_outside::Memory;
use std::alloc::Global;

fn put(out: &mut Vec<u8>, text: &[u8]) -> Result<(), Memory>
    ensures { OnOk result (out.new.items ≡ out.old.items ++ text.now) }
{
    out.extend_from_slice(text)?;
    Ok(())
}

fn put_number(alloc: Global, out: &mut Vec<u8>, number: u32) -> Result<(), Memory>
    ensures { OnOk result (out.new.items ≡ out.old.items ++ decimal number) }
{
    let text = format!(in alloc; "{number}")?;
    put(out, text.as_bytes())
}

fn put_hex(alloc: Global, out: &mut Vec<u8>, bytes: &[u8]) -> Result<(), Memory>
    ensures { OnOk result (out.new.items ≡ out.old.items ++ encode_lower bytes.now) }
{
    let text = hex::encode(alloc, bytes)?;
    put(out, text.as_bytes())
}

#[tactic(auto, using(crate::proofs::TapeTextLemmas::three))]
fn put_point(alloc: Global, out: &mut Vec<u8>, point: &Point) -> Result<(), Memory>
    ensures { OnOk result (out.new.items ≡ out.old.items ++ point_text point.now) }
{
    put_hex(alloc, out, &point.x)?;
    put(out, b" ")?;
    put_hex(alloc, out, &point.y)
}

fn put_message(alloc: Global, out: &mut Vec<u8>, message: &[u8]) -> Result<(), Memory>
    ensures { OnOk result (out.new.items ≡ out.old.items ++ message_text message.now) }
{
    match message {
        [] => put(out, b"-"),
        _ => put_hex(alloc, out, message),
    }
}

#[tactic(auto, using(crate::proofs::TapeTextLemmas::four))]
fn put_agree(alloc: Global, out: &mut Vec<u8>, key: u32, peer: &Point) -> Result<(), Memory>
    ensures { OnOk result (out.new.items
        ≡ out.old.items ++ (codes "agree " ++ decimal key ++ codes " " ++ point_text peer.now)) }
{
    put(out, b"agree ")?;
    put_number(alloc, out, key)?;
    put(out, b" ")?;
    put_point(alloc, out, peer)
}

#[tactic(auto, using(crate::proofs::TapeTextLemmas::four))]
fn put_sign(alloc: Global, out: &mut Vec<u8>, key: u32, message: &[u8]) -> Result<(), Memory>
    ensures { OnOk result (out.new.items
        ≡ out.old.items ++ (codes "sign " ++ decimal key ++ codes " " ++ message_text message.now)) }
{
    put(out, b"sign ")?;
    put_number(alloc, out, key)?;
    put(out, b" ")?;
    put_message(alloc, out, message)
}

#[tactic(auto, using(crate::proofs::TapeTextLemmas::six))]
fn put_verify(
    alloc: Global,
    out: &mut Vec<u8>,
    public: &Point,
    message: &[u8],
    signature: &[u8; 64],
) -> Result<(), Memory>
    ensures { OnOk result (out.new.items ≡ out.old.items
        ++ (codes "verify " ++ point_text public.now ++ codes " " ++ message_text message.now
        ++ codes " " ++ encode_lower signature.now)) }
{
    put(out, b"verify ")?;
    put_point(alloc, out, public)?;
    put(out, b" ")?;
    put_message(alloc, out, message)?;
    put(out, b" ")?;
    put_hex(alloc, out, signature)
}

fn put_ask(alloc: Global, out: &mut Vec<u8>, ask: &Ask) -> Result<(), Memory>
    ensures { OnOk result (out.new.items ≡ out.old.items ++ ask_text ask.now) }
{
    match ask {
        Ask::Fresh => put(out, b"fresh"),
        Ask::Agree(key, peer) => put_agree(alloc, out, *key, peer),
        Ask::Sign(key, message) => put_sign(alloc, out, *key, message.as_slice()),
        Ask::Verify(public, message, signature) => {
            put_verify(alloc, out, public, message.as_slice(), signature)
        }
    }
}

#[tactic(auto, using(crate::proofs::TapeTextLemmas::three))]
fn put_made(alloc: Global, out: &mut Vec<u8>, key: u32, public: &Point) -> Result<(), Memory>
    ensures { OnOk result (out.new.items
        ≡ out.old.items ++ (decimal key ++ codes " " ++ point_text public.now)) }
{
    put_number(alloc, out, key)?;
    put(out, b" ")?;
    put_point(alloc, out, public)
}

fn put_told(alloc: Global, out: &mut Vec<u8>, told: &Told) -> Result<(), Memory>
    ensures { OnOk result (out.new.items ≡ out.old.items ++ told_text told.now) }
{
    match told {
        Told::Made(made) => put_made(alloc, out, made.key, &made.public),
        Told::Secret(secret) => put_hex(alloc, out, secret),
        Told::Refused => put(out, b"refused"),
        Told::Signature(signature) => put_hex(alloc, out, signature),
        Told::Yes => put(out, b"yes"),
        Told::No => put(out, b"no"),
        Told::Failed => put(out, b"failed"),
    }
}

#[tactic(auto, using(crate::proofs::TapeTextLemmas::line), unfolding(crate::specs::TapeText::line_text))]
fn put_line(alloc: Global, out: &mut Vec<u8>, exchange: &Exchange) -> Result<(), Memory>
    ensures { OnOk result (out.new.items
        ≡ out.old.items ++ (line_text exchange.now ++ codes "\n")) }
{
    put_ask(alloc, out, &exchange.ask)?;
    put(out, b" -> ")?;
    put_told(alloc, out, &exchange.told)?;
    put(out, b"\n")
}

/// The text of a tape file that says the exchanges.
#[tactic(auto, using(crate::proofs::TapeTextLemmas::line_more))]
pub(crate) fn tape_text(alloc: Global, exchanges: &[Exchange]) -> Result<Vec<u8>, Memory>
    ensures { IfOk result (λ text. text.items ≡ tape_text exchanges.now) }
{
    let mut text = Vec::new(alloc);
    for exchange in exchanges {
        put_line(alloc, &mut text, exchange)?;
    }
    Ok(text)
}
