//! A certificate that OpenSSL wrote.

use cert_view::Cert;
use std::test::*;

/// A certificate that OpenSSL wrote, in hexadecimal digits: `openssl req -x509 -new -key key.pem
/// -sha256 -set_serial 2 -subj /CN=signer -days 9000 -addext
/// extendedKeyUsage=1.0.18013.5.1.2 -outform DER`, the key being one of prime256v1.
const SIGNER: &str = "\
3082017930820120a003020102020102300a06082a8648ce3d0403023011310f300d06035504030c06736967\
6e65723020170d3236313230313033303132385a180f32303531303732333033303132385a3011310f300d06\
035504030c067369676e65723059301306072a8648ce3d020106082a8648ce3d03010703420004ed5895a8e1\
0906b6cfd51d0d835aa85c1426fe01a7d78326a4462f3cb653d9c385f0b8571bdf8b73ded2090b5e223f003a\
44ee4be96142bf24963c9e8870740ea3673065301d0603551d0e04160414d66a4147cd6a59b12f5ad0c2a91e\
731b69f47a27301f0603551d23041830168014d66a4147cd6a59b12f5ad0c2a91e731b69f47a27300f060355\
1d130101ff040530030101ff30120603551d25040b3009060728818c5d050102300a06082a8648ce3d040302\
034700304402202c5c6225b882908a3cbf21a20a7aa7f926645ff418966fb5821d0dec0697757d022042cc0a\
1dc316e297c5e349172fbc68695fcdf2853e591ff13b51af24286d3565";

fn has_names_and_key(cert: &Cert<'_>, bytes: &[u8]) -> bool {
    Some(cert.issuer()) == bytes.get(28..47)
        && Some(cert.subject()) == bytes.get(81..100)
        && Some(cert.key().x.as_slice()) == bytes.get(127..159)
        && Some(cert.key().y.as_slice()) == bytes.get(159..191)
}

fn has_purpose(cert: &Cert<'_>) -> bool {
    cert.not_before() == 1_796_094_088
        && cert.not_after() == 2_573_694_088
        && cert.signs_documents()
}

/// Whether the certificate is read as OpenSSL prints it.
fn is_read(bytes: &[u8]) -> bool {
    match Cert::read(bytes) {
        Ok(cert) => has_names_and_key(&cert, bytes) && has_purpose(&cert),
        Err(_) => false,
    }
}

#[test]
fn reads_the_fields(rt: HostRuntime) -> Result<(), Fail> {
    let bytes = hex::decode(rt.alloc(), SIGNER).ok().ok_or("digits")?;
    assert!(rt; is_read(&bytes));
    Ok(())
}
