//! What stands first in a copy, a document, a store and a package.

ghost use Rattle.std.specs.Prelude.{◌≡◌, ◌++◌, OnOk};
ghost use Rattle.store_write.specs.Written.{copy_head, document_head, package_head, store_head};

use crate::fields::{VERSION, auth_number};
use cbor_maps::{append_key, append_map_head};
use cbor_write::Build;
use mdoc_outside::{KeyName, Memory};

/// Appends what stands in a copy before the map of its items.
#[tactic(auto, unfolding(crate::specs::Written::copy_head))]
pub fn put_copy_head(
    build: &mut Build,
    key: u32,
    used: bool,
    issuer_auth: &[u8],
) -> Result<(), Memory>
    ensures { OnOk result (build.new ≡ build.old ++ copy_head key used issuer_auth.now) }
{
    append_map_head(build, 4)?;
    append_key(build, KeyName::Key)?;
    build.uint(u64::from(key))?;
    append_key(build, KeyName::Used)?;
    build.boolean(used)?;
    append_key(build, KeyName::IssuerAuth)?;
    build.append(issuer_auth)?;
    append_key(build, KeyName::NameSpaces)
}

/// Appends what stands in a document before the array of its copies.
#[tactic(auto, unfolding(crate::specs::Written::document_head))]
pub(crate) fn put_document_head(
    build: &mut Build,
    doc_type: &str,
    uses_mac: bool,
) -> Result<(), Memory>
    ensures { OnOk result (build.new ≡ build.old ++ document_head doc_type.now uses_mac) }
{
    append_map_head(build, 3)?;
    append_key(build, KeyName::DocType)?;
    build.text(doc_type)?;
    append_key(build, KeyName::Auth)?;
    build.uint(auth_number(uses_mac))?;
    append_key(build, KeyName::Copies)
}

/// Appends what stands in a store before the array of its documents.
#[tactic(auto, unfolding(crate::specs::Written::store_head))]
pub(crate) fn put_store_head(build: &mut Build) -> Result<(), Memory>
    ensures { OnOk result (build.new ≡ build.old ++ store_head) }
{
    append_map_head(build, 2)?;
    append_key(build, KeyName::Version)?;
    build.uint(VERSION)?;
    append_key(build, KeyName::Documents)
}

/// Appends what stands in a package of one document before the array of its copies.
pub fn put_package_head(build: &mut Build, doc_type: &str, uses_mac: bool) -> Result<(), Memory>
    ensures { OnOk result (build.new ≡ build.old ++ package_head doc_type.now uses_mac) }
{
    put_store_head(build)?;
    build.array(1)?;
    put_document_head(build, doc_type, uses_mac)
}
