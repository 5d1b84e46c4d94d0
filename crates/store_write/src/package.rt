//! Writing of a package of one document.

ghost use Rattle.std.specs.Prelude.{◌≡◌, ◌++◌, IfOk, OnOk, [], ◌∷◌};
ghost use Rattle.cbor_view.specs.Shortest.{array_bytes};
ghost use Rattle.store_write.specs.Written.{document_map, store_map};

use crate::heads::put_package_head;
use crate::room::package_room;
use cbor_write::{Build, count_of};
use mdoc_outside::{Memory, Octets};
use std::alloc::Global;

/// Appends the array of copies that were written.
fn put_copies(build: &mut Build, copies: &[Octets]) -> Result<(), Memory>
    ensures { OnOk result (build.new ≡ build.old ++ array_bytes copies.now) }
{
    build.array(count_of(copies.len())?)?;
    for copy in copies {
        build.append(copy.as_slice())?;
    }
    Ok(())
}

/// The bytes of a package of one document, whose copies were written already.
#[tactic(auto, using(crate::proofs::Parts::package_parts))]
pub fn write_package(
    alloc: Global,
    doc_type: &str,
    uses_mac: bool,
    copies: &[Octets],
) -> Result<Octets, Memory>
    ensures { IfOk result (λ b. b ≡ store_map (document_map doc_type.now uses_mac copies.now ∷ [])) }
{
    let mut build = Build::with_room(alloc, package_room(doc_type, copies))?;
    put_package_head(&mut build, doc_type, uses_mac)?;
    put_copies(&mut build, copies)?;
    Ok(build.finish())
}
