// The line of a tape file that says an exchange.
ghost use Rattle.std.specs.Prelude.{◌≡◌, ℕ, List, IfOk, map};
ghost use Rattle.std.specs.Borrow.{Bor};
ghost use Rattle.key_device.specs.TapeLine.{point_of, has_form, made_of, three_of, five_of, six_of, seven_of, told_of_agree, told_of_sign, told_of_verify, sign_of, agree_of, verify_of, exchange_of, line_exchange};

use crate::tape_words::{between_spaces, bytes_of, is_text, message_of, number_of};
use crate::{Ask, Exchange, Made, Point, Told};
use mdoc_outside::Memory;
use std::alloc::Global;

fn point_of(x: &[u8], y: &[u8]) -> Option<Point>
    ensures { result ≡ point_of x.now y.now }
{
    let x = bytes_of(x)?;
    let y = bytes_of(y)?;
    Some(Point { x, y })
}

// Whether a word is that text, and another the arrow before what was told.
fn has_form(kind: &[u8], text: &[u8], arrow: &[u8]) -> bool
    ensures { result ≡ has_form kind.now text.now arrow.now }
{
    is_text(kind, text) && is_text(arrow, b"->")
}

fn made_of(key: &[u8], x: &[u8], y: &[u8]) -> Option<Made>
    ensures { result ≡ made_of key.now x.now y.now }
{
    let key = number_of(key)?;
    let public = point_of(x, y)?;
    Some(Made { key, public })
}

fn told_of_agree(word: &[u8]) -> Option<Told>
    ensures { result ≡ told_of_agree word.now }
{
    if is_text(word, b"failed") {
        return Some(Told::Failed);
    }
    if is_text(word, b"refused") {
        return Some(Told::Refused);
    }
    Some(Told::Secret(bytes_of(word)?))
}

fn told_of_sign(word: &[u8]) -> Option<Told>
    ensures { result ≡ told_of_sign word.now }
{
    if is_text(word, b"failed") {
        return Some(Told::Failed);
    }
    Some(Told::Signature(bytes_of(word)?))
}

fn told_of_verify(word: &[u8]) -> Option<Told>
    ensures { result ≡ told_of_verify word.now }
{
    if is_text(word, b"yes") {
        Some(Told::Yes)
    } else if is_text(word, b"no") {
        Some(Told::No)
    } else if is_text(word, b"failed") {
        Some(Told::Failed)
    } else {
        None
    }
}

fn sign_of(
    alloc: Global,
    key: &[u8],
    message: &[u8],
    word: &[u8],
) -> Result<Option<Exchange>, Memory>
    ensures { IfOk result (λ e. e ≡ sign_of key.now message.now word.now) }
{
    let Some(key) = number_of(key) else {
        return Ok(None);
    };
    let Some(message) = message_of(alloc, message)? else {
        return Ok(None);
    };
    let Some(told) = told_of_sign(word) else {
        return Ok(None);
    };
    Ok(Some(Exchange {
        ask: Ask::Sign(key, message),
        told,
    }))
}

fn agree_of(key: &[u8], x: &[u8], y: &[u8], word: &[u8]) -> Option<Exchange>
    ensures { result ≡ agree_of key.now x.now y.now word.now }
{
    let key = number_of(key)?;
    let peer = point_of(x, y)?;
    let told = told_of_agree(word)?;
    Some(Exchange {
        ask: Ask::Agree(key, peer),
        told,
    })
}

// What a line says of a signature: X Y MESSAGE SIGNATURE, and what was told.
#[derive(Clone, Copy)]
struct VerifyWords<'a> {
    x: &'a [u8],
    y: &'a [u8],
    message: &'a [u8],
    signature: &'a [u8],
    word: &'a [u8],
}

fn verify_of(alloc: Global, words: &VerifyWords<'_>) -> Result<Option<Exchange>, Memory>
    ensures { IfOk result (λ e. e ≡ verify_of words.now.x.now words.now.y.now
        words.now.message.now words.now.signature.now words.now.word.now) }
{
    let Some(public) = point_of(words.x, words.y) else {
        return Ok(None);
    };
    let Some(message) = message_of(alloc, words.message)? else {
        return Ok(None);
    };
    let Some(signature) = bytes_of(words.signature) else {
        return Ok(None);
    };
    let Some(told) = told_of_verify(words.word) else {
        return Ok(None);
    };
    Ok(Some(Exchange {
        ask: Ask::Verify(public, message, signature),
        told,
    }))
}

// Three words: no key was made.
fn three_of(kind: &[u8], arrow: &[u8], word: &[u8]) -> Option<Exchange>
    ensures { result ≡ three_of kind.now arrow.now word.now }
{
    if !has_form(kind, b"fresh", arrow) {
        return None;
    }
    if !is_text(word, b"failed") {
        return None;
    }
    Some(Exchange {
        ask: Ask::Fresh,
        told: Told::Failed,
    })
}

// Five words: a key that was made, or what was told of a signature.
fn five_of(
    alloc: Global,
    kind: &[u8],
    one: &[u8],
    two: &[u8],
    three: &[u8],
    four: &[u8],
) -> Result<Option<Exchange>, Memory>
    ensures { IfOk result (λ e. e ≡ five_of kind.now one.now two.now three.now four.now) }
{
    if has_form(kind, b"fresh", one) {
        let Some(made) = made_of(two, three, four) else {
            return Ok(None);
        };
        return Ok(Some(Exchange {
            ask: Ask::Fresh,
            told: Told::Made(made),
        }));
    }
    if has_form(kind, b"sign", three) {
        return sign_of(alloc, one, two, four);
    }
    Ok(None)
}

// Six words: what was told of a secret.
fn six_of(
    kind: &[u8],
    key: &[u8],
    x: &[u8],
    y: &[u8],
    arrow: &[u8],
    word: &[u8],
) -> Option<Exchange>
    ensures { result ≡ six_of kind.now key.now x.now y.now arrow.now word.now }
{
    if has_form(kind, b"agree", arrow) {
        agree_of(key, x, y, word)
    } else {
        None
    }
}

// Seven words: what was told of another's signature.
fn seven_of(
    alloc: Global,
    kind: &[u8],
    arrow: &[u8],
    words: &VerifyWords<'_>,
) -> Result<Option<Exchange>, Memory>
    ensures { IfOk result (λ e. e ≡ seven_of kind.now words.now.x.now words.now.y.now
        words.now.message.now words.now.signature.now arrow.now words.now.word.now) }
{
    if has_form(kind, b"verify", arrow) {
        verify_of(alloc, words)
    } else {
        Ok(None)
    }
}

// The exchange that the words say.
#[tactic(auto, using(crate::proofs::TapeLineLemmas::none_of_few, crate::proofs::TapeLineLemmas::none_of_four, crate::proofs::TapeLineLemmas::none_of_many), unfolding(crate::specs::TapeLine::exchange_of))]
fn exchange_of(alloc: Global, words: &[&[u8]]) -> Result<Option<Exchange>, Memory>
    ensures { IfOk result (λ e. e ≡ exchange_of (map (λ (word : Bor (List ℕ)). word.now) words.now)) }
{
    match words {
        [kind, arrow, word] => Ok(three_of(kind, arrow, word)),
        [kind, one, two, three, four] => five_of(alloc, kind, one, two, three, four),
        [kind, key, x, y, arrow, word] => Ok(six_of(kind, key, x, y, arrow, word)),
        [kind, x, y, message, signature, arrow, word] => {
            let words = VerifyWords {
                x,
                y,
                message,
                signature,
                word,
            };
            seven_of(alloc, kind, arrow, &words)
        }
        _ => Ok(None),
    }
}

/// The exchange that a line says, without its line feed.
pub(crate) fn line_exchange(alloc: Global, line: &[u8]) -> Result<Option<Exchange>, Memory>
    ensures { IfOk result (λ e. e ≡ line_exchange line.now) }
{
    let words = between_spaces(alloc, line)?;
    exchange_of(alloc, &words)
}
