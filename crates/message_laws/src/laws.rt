//! What holds of the definitions alone. Each is the contract of a function that does nothing.

ghost use Rattle.std.specs.Prelude.{◌≡◌, ℕ, List, Ok};
ghost use Rattle.key_device.specs.declared.point.Point.{Point};
ghost use Rattle.cbor_view.specs.Parts.{LiesIn, Part, cbor};
ghost use Rattle.cose_msgs.specs.Key.{key_of};
ghost use Rattle.cose_msgs.specs.Message.{Authenticated, Signed, mac0, sign1};
ghost use Rattle.issuer_items.specs.Item.{Item, item};
ghost use Rattle.message_laws.specs.ItemLies.{ItemLies};
ghost use Rattle.message_laws.specs.MessageLies.{CodeLies, KeyLies, SignatureLies};
ghost use Rattle.message_laws.specs.StringLies.{whole_part};

/// Bytes that are one item lie in themselves, as the laws below ask of an item.
pub fn whole_stands_in_bytes()
    ensures { (bytes : List ℕ) (whole : Part) → cbor bytes ≡ Ok whole → (whole ≡ whole_part bytes) × LiesIn (whole_part bytes) whole }
{}

/// What is read of a signature (COSE_Sign1; RFC 9052, section 4.2) stands in all bytes in which its item stands, each at
/// its place: the protected bytes, the payload, the signature, and the certificate of the unprotected map.
pub fn signature_stands_in_bytes()
    ensures { (all item : Part) (signature : Signed) → LiesIn all item → sign1 item ≡ Ok signature → SignatureLies all item signature }
{}

/// The same of a code (COSE_Mac0; section 6.2): the protected bytes, the payload and the tag.
pub fn code_stands_in_bytes()
    ensures { (all item : Part) (code : Authenticated) → LiesIn all item → mac0 item ≡ Ok code → CodeLies all item code }
{}

/// The same of a key (COSE_Key; section 7): its coordinates.
pub fn key_stands_in_bytes()
    ensures { (all item : Part) (key : Point) → LiesIn all item → key_of item ≡ Ok key → KeyLies all item key }
{}

/// The same of an issuer-signed item: the map that its tagged string is, and in it the random, the element's identifier
/// and its value.
pub fn item_stands_in_bytes()
    ensures { (all part : Part) (read : Item) → LiesIn all part → item part.bytes ≡ Ok read → ItemLies all part read }
{}
