//! A trusted certificate.

ghost use Rattle.std.specs.Prelude.{◌≡◌, Ok, IsOk, option_map};
ghost use Rattle.cert_view.specs.Certificate.{certificate};
ghost use Rattle.cert_view.specs.RootLine.{listed_as};

use crate::cert::Cert;
use mdoc_outside::{Octets, Word};

/// A trusted certificate, by the name under which it is listed.
#[derive(Drop)]
pub struct Root {
    pub(crate) name: Word,
    pub(crate) bytes: Octets,
    ghost reads: { IsOk (certificate bytes) },
}

impl Root {
    ghost use Rattle.cert_view.specs.Cert.{fields};
    ghost use Rattle.cert_view.specs.Root.{listed};

    /// The bytes under that name, where they are a certificate.
    pub(crate) fn listed_as(name: Word, bytes: Octets) -> Option<Root>
        ensures { option_map listed result ≡ listed_as name bytes }
    {
        if Cert::read(bytes.as_slice()).is_err() {
            return None;
        }
        Some(Root { name, bytes })
    }

    /// Its name in the list.
    pub fn name(&self) -> &str
        ensures { result.now ≡ (listed self.now).name }
    {
        self.name.as_str()
    }

    /// The certificate.
    pub fn cert(&self) -> Cert<'_>
        ensures { certificate (listed self.now).bytes ≡ Ok (fields result) }
    {
        match Cert::read(self.bytes.as_slice()) {
            Ok(cert) => cert,
            Err(_) => unreachable!(),
        }
    }
}
