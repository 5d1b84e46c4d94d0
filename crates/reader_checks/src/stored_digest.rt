//! The digest of an item against that of the security object.

ghost use Rattle.std.specs.Prelude.{◌≡◌, option_map, true};
ghost use Rattle.issuer_items.specs.ItemView.{fields, raw_of};
ghost use Rattle.mso_digests.specs.Digests.{digest_at, have_length};
ghost use Rattle.mso_digests.specs.MsoView.{object_seen};
ghost use Rattle.sha2.specs.Sha256.{sha256};
ghost use Rattle.verdict_model.specs.Elements.{digest_check};

use issuer_items::Item;
use mso_digests::Mso;
use sha2::{Digest, Sha256};
use verdict_model::ElementCheck;

/// The digest that the object has under that namespace and digest identifier.
#[tactic(auto, using(mso_digests::proofs::DigestLength::digest_length))]
fn kept_digest<'a>(object: &Mso<'a>, ns: &str, id: u64) -> Option<&'a [u8; 32]>
    requires { have_length (object_seen object.now).digests ≡ true }
    ensures { option_map (λ digest. digest.now) result ≡ digest_at ns.now id (object_seen object.now).digests }
{
    match object.digest(ns, id)?.as_array::<32>() {
        Some(digest) => Some(digest),
        None => unreachable!(),
    }
}

/// The check that fails of the digest of an item, which is taken over its bytes as they are, tag and head included (ISO/IEC
/// 18013-5, 9.1.2.4).
pub(crate) fn digest_check(object: &Mso<'_>, ns: &str, item: &Item<'_>) -> Option<ElementCheck>
    requires { have_length (object_seen object.now).digests ≡ true }
    ensures { result ≡ digest_check (sha256 (raw_of item.now)) (digest_at ns.now (fields item.now).digest_id (object_seen object.now).digests) }
{
    let made = Sha256::digest(item.raw());
    match kept_digest(object, ns, item.id()) {
        None => Some(ElementCheck::NoDigest),
        Some(kept) => {
            if *kept == made {
                None
            } else {
                Some(ElementCheck::DigestDiffers { kept: *kept, made })
            }
        }
    }
}
