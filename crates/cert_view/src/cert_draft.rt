//! What a certificate is to say.

ghost use Rattle.std.specs.Prelude.{◌≡◌, ◌↔◌, IsTrue};
ghost use Rattle.std.specs.List.{list_all};
ghost use Rattle.cert_view.specs.Written.{is_printable, IsName, IsTime, IsWritable};

use key_device::Point;
use mdoc_outside::Octets;

/// What a certificate is to say, and which key signs it.
#[derive(Drop)]
pub struct CertDraft {
    /// The serial number.
    pub serial: u64,
    /// The issuer's common name, of 1 to 64 printable characters of ASCII.
    pub issuer: Octets,
    /// The subject's common name, of 1 to 64 printable characters of ASCII.
    pub subject: Octets,
    /// The first second of the validity, in seconds since 1970, in the years 1950 to 9999.
    pub from: i64,
    /// The last second of the validity, likewise.
    pub until: i64,
    /// The subject's public key.
    pub key: Point,
    /// Whether the extended key usage is that of a document signer (ISO/IEC 18013-5, annex B).
    pub signer: bool,
    /// The number by which the device knows the issuer's key.
    pub issuer_key: u32,
}

/// The first and the last second of the years 1950 to 9999, in seconds since 1970.
const YEARS: (i64, i64) = (-631_152_000, 253_402_300_799);

fn is_printable(byte: u8) -> bool
    ensures { result ≡ is_printable byte }
{
    32 <= byte && byte <= 126
}

fn are_printable(bytes: &[u8]) -> bool
    ensures { result ≡ list_all is_printable bytes.now }
{
    for byte in bytes {
        if !is_printable(*byte) {
            return false;
        }
    }
    true
}

fn is_name(name: &[u8]) -> bool
    ensures { IsTrue result ↔ IsName name.now }
{
    !name.is_empty() && name.len() <= 64 && are_printable(name)
}

fn is_time(moment: i64) -> bool
    ensures { IsTrue result ↔ IsTime moment }
{
    YEARS.0 <= moment && moment <= YEARS.1
}

impl CertDraft {
    /// Whether the names and the times are as the writer wants them.
    pub fn is_writable(&self) -> bool
        ensures { IsTrue result ↔ IsWritable self.now }
    {
        is_name(self.issuer.as_slice())
            && is_name(self.subject.as_slice())
            && is_time(self.from)
            && is_time(self.until)
    }
}
