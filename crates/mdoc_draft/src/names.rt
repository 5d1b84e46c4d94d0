// The texts of names.
ghost use Rattle.std.specs.Prelude.{◌≡◌};
ghost use Rattle.doc_request.specs.Draft.{IsName};

use mdoc_outside::Octets;
use std::str;

// The text of a name.
pub(crate) fn text_of(name: &Octets) -> &str
    requires { IsName name.now }
    ensures { result.now ≡ name.now }
{
    match str::from_utf8(name.as_slice()) {
        Ok(text) => text,
        Err(_) => unreachable!(),
    }
}
