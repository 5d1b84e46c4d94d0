//! Values of the maps of a store file.

ghost use Rattle.std.specs.Prelude.{◌≡◌};
ghost use Rattle.store_write.specs.Written.{auth_number};

/// The version of a store file.
pub(crate) const VERSION: u64 = 1;

/// The number that says how a document is authenticated: by a signature, or by a MAC.
pub(crate) fn auth_number(uses_mac: bool) -> u64
    ensures { result ≡ auth_number uses_mac }
{
    if uses_mac { 1 } else { 0 }
}
