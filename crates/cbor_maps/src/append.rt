//! Heads and keys of maps with named keys, appended to what is written.

ghost use Rattle.std.specs.Prelude.{◌≡◌, ◌++◌, OnOk};
ghost use Rattle.cbor_maps.specs.Writing.{key_bytes, map_head};

use cbor_write::Build;
use mdoc_outside::{KeyName, Memory};

/// Appends the head of a map of so many fields.
#[tactic(auto, unfolding(crate::specs::Writing::map_head))]
pub fn append_map_head(build: &mut Build, count: u32) -> Result<(), Memory>
    ensures { OnOk result (build.new ≡ build.old ++ map_head count) }
{
    build.map(count)
}

/// Appends the key of a field, whose value comes next.
#[tactic(auto, unfolding(crate::specs::Writing::key_bytes))]
pub fn append_key(build: &mut Build, name: KeyName) -> Result<(), Memory>
    ensures { OnOk result (build.new ≡ build.old ++ key_bytes name) }
{
    build.text(name.text())
}
