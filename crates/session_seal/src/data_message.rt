//! Messages with a sealed text.

ghost use Rattle.std.specs.Prelude.{◌≡◌, ◌≤◌, ◌<◌, ◌^◌, ◌+◌, ◌++◌, IfOk, OnOk, Some, length, take, drop};
ghost use Rattle.aes_gcm.specs.Sealing.{sealed};
ghost use Rattle.cbor_view.specs.Shortest.{shortest_head};
ghost use Rattle.session_seal.specs.Places.{sealed_text};
ghost use Rattle.session_seal.specs.WrittenMessages.{data_head, establishment_bytes, establishment_head, last_status, session_data_bytes, status_field};

use aes_gcm::Key256;
use cbor_view::ENCODED;
use cbor_write::Build;
use mdoc_outside::{KeyName, Memory, Octets};
use std::alloc::Global;

/// The length of the tag of a ciphertext.
const TAG_LEN: usize = 16;

/// The status 20 as a field of a message, of 8 bytes.
const STATUS_FIELD: [u8; 8] = *b"\x66status\x14";

/// SessionData with a text that is sealed, and status 20 where it is the last one.
pub(crate) fn seal_data(
    alloc: Global,
    key: &Key256,
    iv: &[u8; 12],
    text: &[u8],
    last: bool,
) -> Result<Octets, Memory>
    requires { length text.now ≤ 2 ^ 24 }
    ensures { IfOk result (λ m. m ≡ session_data_bytes (record { sealed = Some (sealed_text key.now iv.now text.now); status = last_status last })) }
{
    let head = data_head(alloc, sealed_len(text), last)?;
    let message = seal_after(alloc, &head, key, iv, text, status_field(last))?;
    Ok(message)
}

/// SessionEstablishment with the bytes of a key and a text that is sealed.
pub(crate) fn seal_establishment(
    alloc: Global,
    reader_key: &[u8],
    key: &Key256,
    iv: &[u8; 12],
    text: &[u8],
) -> Result<Octets, Memory>
    requires { length text.now ≤ 2 ^ 24 }
    ensures { IfOk result (λ m. m ≡ establishment_bytes reader_key.now (sealed_text key.now iv.now text.now)) }
{
    let head = establishment_head(alloc, reader_key, sealed_len(text))?;
    let message = seal_after(alloc, &head, key, iv, text, &[])?;
    Ok(message)
}

/// The length of a text that is sealed.
fn sealed_len(text: &[u8]) -> u32
    requires { length text.now ≤ 2 ^ 24 }
    ensures { result ≡ length text.now + 16 }
{
    (text.len() + TAG_LEN) as u32
}

/// The field of the status of a last message.
#[tactic(auto, unfolding(cbor_maps::specs::Writing::key_bytes))]
fn status_field(last: bool) -> &'static [u8]
    ensures { result.now ≡ status_field last }
{
    if last { &STATUS_FIELD } else { &[] }
}

/// What is before a sealed text of so many bytes in SessionData.
#[tactic(auto, unfolding(crate::specs::WrittenMessages::data_head, cbor_maps::specs::Writing::map_head, cbor_maps::specs::Writing::key_bytes))]
fn data_head(alloc: Global, length: u32, last: bool) -> Result<Octets, Memory>
    ensures { IfOk result (λ b. b ≡ data_head length last) }
{
    let mut out = Build::new(alloc);
    out.map(if last { 2 } else { 1 })?;
    out.text(KeyName::Data.text())?;
    put_string_head(&mut out, length)?;
    Ok(out.finish())
}

/// What is before a sealed text of so many bytes in SessionEstablishment.
#[tactic(auto, unfolding(crate::specs::WrittenMessages::establishment_head, cbor_maps::specs::Writing::map_head, cbor_maps::specs::Writing::key_bytes))]
fn establishment_head(alloc: Global, reader_key: &[u8], length: u32) -> Result<Octets, Memory>
    ensures { IfOk result (λ b. b ≡ establishment_head reader_key.now length) }
{
    let mut out = Build::new(alloc);
    out.map(2)?;
    out.text(KeyName::EReaderKey.text())?;
    out.tag(ENCODED)?;
    out.bytes(reader_key)?;
    out.text(KeyName::Data.text())?;
    put_string_head(&mut out, length)?;
    Ok(out.finish())
}

/// Appends the shortest head of a string of so many bytes (RFC 8949, section 4.2.1).
fn put_string_head(out: &mut Build, length: u32) -> Result<(), Memory>
    ensures { OnOk result (out.new ≡ out.old ++ shortest_head 2 length) }
{
    if length < 24 {
        out.append(&[0x40 + length as u8])
    } else if length < 1 << 8 {
        out.append(&[0x58, length as u8])
    } else if length < 1 << 16 {
        let [a, b] = (length as u16).to_be_bytes();
        out.append(&[0x59, a, b])
    } else {
        let [a, b, c, d] = length.to_be_bytes();
        out.append(&[0x5a, a, b, c, d])
    }
}

/// A head, a text that is sealed in the buffer that is answered, and what is after it.
#[tactic(auto, unfolding(crate::specs::Places::sealed_text))]
fn seal_after(
    alloc: Global,
    head: &Octets,
    key: &Key256,
    iv: &[u8; 12],
    text: &[u8],
    after: &[u8],
) -> Result<Octets, Memory>
    requires { length text.now ≤ 2 ^ 24 }
    ensures { IfOk result (λ m. m ≡ head.now ++ (sealed_text key.now iv.now text.now ++ after.now)) }
{
    let mut bytes = head.as_slice().to_vec(alloc)?;
    let from = bytes.len();
    bytes.reserve(text.len() + TAG_LEN + STATUS_FIELD.len())?;
    bytes.extend_from_slice(text)?;
    let tag = seal_from(key, iv, bytes.as_mut_slice(), from);
    bytes.extend_from_slice(&tag)?;
    bytes.extend_from_slice(after)?;
    Ok(Octets::from_vec(bytes))
}

/// Seals in place what is from a place on, and gives the tag.
fn seal_from(key: &Key256, iv: &[u8; 12], bytes: &mut [u8], from: usize) -> [u8; 16]
    requires within { from ≤ length bytes.old }
    requires short { length bytes.old ≤ from + 2 ^ 24 }
    ensures text { bytes.new ≡ take from bytes.old ++ (sealed key.now iv.now (drop from bytes.old)).0 }
    ensures tag { result ≡ (sealed key.now iv.now (drop from bytes.old)).1 }
{
    key.seal_in_place(iv, &mut bytes[from..])
}
