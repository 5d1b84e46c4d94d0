//! The digest of an element against that of the security object.

ghost use Rattle.std.specs.Prelude.{◌≡◌, option_map};
ghost use Rattle.issuer_items.specs.ItemView.{fields, raw_of};
ghost use Rattle.reader_checks.specs.FirstCheck.{HaveLength};
ghost use Rattle.mso_digests.specs.Indexed.{indexed};
ghost use Rattle.sha2.specs.Sha256.{sha256};
ghost use Rattle.verdict_model.specs.Elements.{digest_check};

use issuer_items::Item;
use mso_digests::DigestIndex;
use sha2::{Digest, Sha256};
use verdict_model::ElementCheck;

/// The digest under that namespace and digest identifier.
fn kept_digest<'a>(digests: &DigestIndex<'a>, ns: &str, id: u64) -> Option<&'a [u8; 32]>
    requires { HaveLength digests.now }
    ensures { option_map (λ digest. digest.now) result ≡ indexed digests.now ns.now id }
{
    match digests.digest(ns, id)?.as_array::<32>() {
        Some(digest) => Some(digest),
        None => unreachable!(),
    }
}

/// The check that fails of the digest of an item, which is taken over its bytes as they are, tag and head included (ISO/IEC
/// 18013-5, 9.1.2.4).
pub(crate) fn digest_check(
    digests: &DigestIndex<'_>,
    ns: &str,
    item: &Item<'_>,
) -> Option<ElementCheck>
    requires { HaveLength digests.now }
    ensures { result ≡ digest_check (sha256 (raw_of item.now)) (indexed digests.now ns.now (fields item.now).digest_id) }
{
    let made = Sha256::digest(item.raw());
    match kept_digest(digests, ns, item.id()) {
        None => Some(ElementCheck::NoDigest),
        Some(kept) => {
            if *kept == made {
                None
            } else {
                Some(ElementCheck::DigestDiffers { kept: *kept, made })
            }
        }
    }
}
