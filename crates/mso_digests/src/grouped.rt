//! Digests that are written by namespace.

ghost use Rattle.std.specs.Prelude.{◌≡◌, ◌++◌, ◌<◌, ◌^◌, true, length, map, IfOk, OnOk, IsUtf8};
ghost use Rattle.cbor_view.specs.Shortest.{text_bytes};
ghost use Rattle.mso_digests.specs.Written.{AreTexts, digest_pair, digests_bytes, group, group_bytes, has_namespace, is_of, namespace_pair, namespaces};
ghost use Rattle.mso_digests.specs.WrittenFacts.{AllHaveSpelling, HasSpelling};
ghost use Rattle.mso_digests.specs.WrittenSteps.{put_all};

use cbor_write::Build;
use mdoc_outside::{Memory, Octets};
use std::alloc::Global;

/// A digest with its namespace and its digest identifier.
type Entry = (Octets, u64, [u8; 32]);

/// Whether each of the digests has a spelling: its namespace has less than 2^32 bytes.
fn have_spelling(digests: &[Entry]) -> bool
    requires { AreTexts digests.now }
    ensures { result ≡ true → AllHaveSpelling digests.now }
{
    for digest in digests {
        if !has_spelling(digest.0.as_slice(), digest.1, &digest.2) {
            return false;
        }
    }
    true
}

/// Whether a digest under a digest identifier has a spelling in that namespace.
fn has_spelling(namespace: &[u8], number: u64, digest: &[u8; 32]) -> bool
    requires { IsUtf8 namespace.now }
    ensures { result ≡ true → HasSpelling (namespace.now, number, digest.now) }
{
    let _length = digest.len();
    let Ok(_) = u32::try_from(namespace.len()) else {
        return false;
    };
    true
}

/// Whether it is a digest of that namespace.
fn is_of(digest: &Entry, namespace: &[u8]) -> bool
    ensures { result ≡ is_of namespace.now digest.now }
{
    digest.0.as_slice() == namespace
}

/// Whether one of the digests is of that namespace.
fn has_namespace(digests: &[Entry], namespace: &[u8]) -> bool
    ensures { result ≡ has_namespace namespace.now digests.now }
{
    for digest in digests {
        if is_of(digest, namespace) {
            return true;
        }
    }
    false
}

/// How many of the digests are of that namespace.
fn count_of(digests: &[Entry], namespace: &[u8]) -> usize
    ensures { result ≡ length (group namespace.now digests.now) }
{
    let mut count = 0;
    for digest in digests {
        if is_of(digest, namespace) {
            count += 1;
        }
    }
    count
}

/// Appends the digests of a namespace, each under its digest identifier.
fn append_digests(out: &mut Build, digests: &[Entry], namespace: &[u8]) -> Result<(), Memory>
    ensures { OnOk result (out.new ≡ put_all out.old (map digest_pair (group namespace.now digests.now))) }
{
    for digest in digests {
        if is_of(digest, namespace) {
            out.uint(digest.1)?;
            out.bytes(&digest.2)?;
        }
    }
    Ok(())
}

/// Appends a namespace with the map of its digests.
#[tactic(auto, using(crate::proofs::GroupedBytes::map_joined))]
fn append_namespace(out: &mut Build, digests: &[Entry], namespace: &[u8]) -> Result<(), Memory>
    requires { IsUtf8 namespace.now }
    ensures ok { OnOk result (out.new ≡ (out.old ++ text_bytes namespace.now) ++ group_bytes digests.now namespace.now) }
    ensures short { OnOk result (length namespace.now < 2 ^ 32) }
{
    let Ok(text) = str::from_utf8(namespace) else {
        unreachable!();
    };
    let Ok(count) = u32::try_from(count_of(digests, namespace)) else {
        return Err(Memory);
    };
    out.text(text)?;
    out.map(count)?;
    append_digests(out, digests, namespace)
}

/// Appends each namespace that no earlier digest has with the map of its digests, and answers how many these are.
fn append_namespaces(out: &mut Build, digests: &[Entry]) -> Result<usize, Memory>
    requires { AreTexts digests.now }
    ensures written { OnOk result (out.new ≡ put_all out.old (map (namespace_pair digests.now) (namespaces digests.now))) }
    ensures count { IfOk result (λ n. n ≡ length (namespaces digests.now)) }
{
    let mut count = 0;
    for (place, digest) in digests.iter().enumerate() {
        let namespace = digest.0.as_slice();
        if !has_namespace(&digests[..place], namespace) {
            append_namespace(out, digests, namespace)?;
            count += 1;
        }
    }
    Ok(count)
}

/// The map of namespaces, each with the map of its digests (valueDigests; ISO/IEC 18013-5, 9.1.2.4).
#[tactic(auto, using(crate::proofs::GroupedBytes::map_apart), unfolding(crate::specs::Written::digests_bytes))]
pub(crate) fn write_digests(alloc: Global, digests: &[Entry]) -> Result<Octets, Memory>
    requires { AreTexts digests.now }
    ensures written { IfOk result (λ b. b ≡ digests_bytes digests.now) }
    ensures spelling { OnOk result (AllHaveSpelling digests.now) }
    ensures few { OnOk result (length digests.now < 2 ^ 32) }
{
    if u32::try_from(digests.len()).is_err() || !have_spelling(digests) {
        return Err(Memory);
    }
    let mut namespaces = Build::new(alloc);
    let count = append_namespaces(&mut namespaces, digests)?;
    let Ok(count) = u32::try_from(count) else {
        return Err(Memory);
    };
    let namespaces = namespaces.finish();
    let mut out = Build::new(alloc);
    out.map(count)?;
    out.append(namespaces.as_slice())?;
    Ok(out.finish())
}
