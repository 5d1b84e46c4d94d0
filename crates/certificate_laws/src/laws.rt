//! Laws of certificates (RFC 5280, 4.1). Each is the contract of a function that does nothing.

ghost use Rattle.std.specs.Prelude.{◌≡◌, ◌↔◌, ℕ, ℤ, true, List, [], ◌∷◌, Some, Result, Ok, Err, Contains};
ghost use Rattle.key_device.specs.declared.point.Point.{Point};
ghost use Rattle.der_view.specs.declared.der_fault.DerFault.{DerFault};
ghost use Rattle.der_view.specs.Element.{AreBytes, IsElement, element};
ghost use Rattle.der_view.specs.Parts.{Part, parts_of};
ghost use Rattle.cert_view.specs.Certificate.{Fields, certificate};
ghost use Rattle.cert_view.specs.Faults.{fault};
ghost use Rattle.cert_view.specs.Shapes.{has_tag, all_read};
ghost use Rattle.cert_view.specs.Tbs.{Tbs, Layout, layout, to_be_signed};
ghost use Rattle.cert_view.specs.declared.cert_check.CertCheck.TheVariants.{Shape};
ghost use Rattle.cert_view.specs.declared.cert_fault.CertFault.{CertFault};
ghost use Rattle.certificate_laws.specs.Extensions.{Extension, IsFormed};
ghost use Rattle.certificate_laws.specs.Faults.{IsFirst, algorithm_faults, certificate_faults, extension_faults, key_faults, signature_faults, tbs_faults, validity_faults, version_faults};
ghost use Rattle.certificate_laws.specs.IsCertificate.{IsCertificate, IsEcdsaWithSha256, IsPublicKeyInfo, IsSignatureValue, IsSomeCertificate, IsTbsCertificate, IsValidity};
ghost use Rattle.certificate_laws.specs.IsLayout.{IsLayout};
ghost use Rattle.certificate_laws.specs.MadeOf.{IsMadeOf};
ghost use Rattle.certificate_laws.specs.PartsLie.{FieldsLie, LiesIn};

/// The reading of bytes gives fields exactly where the bytes are a certificate with these fields (RFC
/// 5280, 4.1).
pub fn is_certificate()
    ensures { (bytes : List ℕ) (fields : Fields) → AreBytes bytes → (certificate bytes ≡ Ok fields) ↔ IsCertificate bytes fields }
{}

/// The parts of a to-be-signed part give a layout exactly where they stand in the standard's order (RFC
/// 5280, 4.1.2), and the layout is that order's. Where they all read and are in no such order, be they too
/// few or too many, this is the one thing that is wrong with it, and it is reported.
pub fn is_layout()
    ensures read { (parts : List (Result Part DerFault)) (l : Layout) → (layout parts ≡ Some l) ↔ IsLayout parts l }
    ensures faults { (p : Part) → has_tag 0x30 p ≡ true → all_read (parts_of p) ≡ Ok tt → ((l : Layout) → IsLayout (parts_of p) l → ⊥) → tbs_faults p ≡ fault Shape p.at ∷ [] }
    ensures reported { (p : Part) → has_tag 0x30 p ≡ true → all_read (parts_of p) ≡ Ok tt → ((l : Layout) → IsLayout (parts_of p) l → ⊥) → to_be_signed p ≡ Err (fault Shape p.at) }
{}

/// The fault that is reported is the first of all that is wrong with the bytes: one of them, and none is
/// before it by the order of checks and then by place.
pub fn first_fault()
    ensures { (bytes : List ℕ) (fault : CertFault) → AreBytes bytes → (certificate bytes ≡ Err fault) ↔ IsFirst fault (certificate_faults bytes) }
{}

/// Nothing is wrong with bytes exactly where they are a certificate.
pub fn faultless_is_certificate()
    ensures { (bytes : List ℕ) → AreBytes bytes → (certificate_faults bytes ≡ []) ↔ IsSomeCertificate bytes }
{}

/// Nothing is wrong with an element that is to be a part of a certificate exactly where it is that part.
pub fn faultless_parts()
    ensures version { (p : Part) (tag : ℕ) (body : List ℕ) → AreBytes p.bytes → IsElement p.bytes tag body → (version_faults p ≡ []) ↔ IsMadeOf 0xa0 (element 0x02 (2 ∷ []) ∷ []) p.bytes }
    ensures algorithm { (p : Part) (tag : ℕ) (body : List ℕ) → AreBytes p.bytes → IsElement p.bytes tag body → (algorithm_faults p ≡ []) ↔ IsEcdsaWithSha256 p.bytes }
    ensures validity { (p : Part) (tag : ℕ) (body : List ℕ) → AreBytes p.bytes → IsElement p.bytes tag body → (validity_faults p ≡ []) ↔ ((times : ℤ × ℤ) × IsValidity p.bytes times.0 times.1) }
    ensures key { (p : Part) (tag : ℕ) (body : List ℕ) → AreBytes p.bytes → IsElement p.bytes tag body → (key_faults p ≡ []) ↔ ((key : Point) × IsPublicKeyInfo p.bytes key) }
    ensures signature { (p : Part) (tag : ℕ) (body : List ℕ) → AreBytes p.bytes → IsElement p.bytes tag body → (signature_faults p ≡ []) ↔ ((signature : List ℕ) × IsSignatureValue p.bytes signature) }
    ensures extension { (p : Part) (tag : ℕ) (body : List ℕ) → AreBytes p.bytes → IsElement p.bytes tag body → (extension_faults p ≡ []) ↔ ((extension : Extension) × IsFormed p.bytes extension) }
    ensures to_be_signed { (p : Part) (tag : ℕ) (body : List ℕ) → AreBytes p.bytes → IsElement p.bytes tag body → (tbs_faults p ≡ []) ↔ ((fields : Tbs) × IsTbsCertificate p.bytes fields) }
{}

/// A part of an element that lies in others lies in them too, at its place.
pub fn parts_stand_in_bytes()
    ensures { (all p q : Part) (tag : ℕ) (body : List ℕ) → AreBytes p.bytes → IsElement p.bytes tag body → LiesIn all p → Contains (parts_of p) (Ok q) → LiesIn all q }
{}

/// What the fields of a certificate borrow are parts of it that lie in its bytes, each at its place: what
/// is signed, the issuer and the subject.
pub fn fields_stand_in_bytes()
    ensures { (bytes : List ℕ) (fields : Fields) → AreBytes bytes → certificate bytes ≡ Ok fields → FieldsLie bytes fields }
{}
