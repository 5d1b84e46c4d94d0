//! A map whose keys are named by a table.

ghost use Rattle.std.specs.Prelude.{◌≡◌, ℕ, ◌<◌, ◌≤◌, length, IfOk, IfSome, option_map};
ghost use Rattle.std.proofs.Props.{props};
ghost use Rattle.cbor_view.specs.Items.{left};
ghost use Rattle.cbor_view.specs.Parts.{AllLieIn, LiesIn, boolean_in, bytes_in, items_in, text_in, uint_in};
ghost use Rattle.cbor_view.specs.Reading.{Gives};
ghost use Rattle.cbor_view.specs.View.{part};
ghost use Rattle.cbor_maps.specs.Contents.{IsPart};
ghost use Rattle.cbor_maps.specs.Reading.{distinct, entry, field, optional_field, any_in, map_in, encoded_in};
ghost use Rattle.cbor_maps.specs.Found.{seen, found_at, name_at};

use crate::MapFault;
use crate::find::find_all;
use crate::found::Found;
use cbor_view::{ENCODED, Items, Key, View};
use mdoc_outside::KeyName;

/// The value under a name, as what it has to be, or the fault of that name.
macro_rules! needed {
    ($map:ident, $name:ident, $value:ident => $kind:expr) => {
        match $map.found_under($name) {
            Found::Once($value) => match $kind {
                Some(read) => Ok(read),
                None => Err(MapFault::Field($name)),
            },
            Found::Missing => Err(MapFault::Field($name)),
            Found::Twice => Err(MapFault::Doubled($name)),
        }
    };
}

/// The same of a name that may be missing.
macro_rules! allowed {
    ($map:ident, $name:ident, $value:ident => $kind:expr) => {
        match $map.found_under($name) {
            Found::Once($value) => match $kind {
                Some(read) => Ok(Some(read)),
                None => Err(MapFault::Field($name)),
            },
            Found::Missing => Ok(None),
            Found::Twice => Err(MapFault::Doubled($name)),
        }
    };
}

/// The value, where it is a map.
fn if_map(value: View<'_>) -> Option<View<'_>>
    ensures { option_map part result ≡ map_in (part value.entry) }
{
    match value.pairs() {
        Some(_) => Some(value),
        None => None,
    }
}

/// The string of bytes under tag 24.
fn encoded_bytes(value: View<'_>) -> Option<&[u8]>
    ensures { option_map (λ b. b.now) result ≡ encoded_in (part value.entry) }
{
    match value.tag() {
        Some((ENCODED, inner)) => inner.bytes(),
        _ => None,
    }
}

/// A map with what is under each of the names of a table, found in one walk over its pairs.
#[derive(Clone, Copy)]
pub struct NamedMap<'a> {
    map: View<'a>,
    names: &'a [KeyName],
    found: [Found<'a>; 8],
    ghost few: { length names.now ≤ 8 },
    ghost walked: { (i : ℕ) → i < length names.now → seen (found_at found i) ≡ entry (part map) (name_at names.now i) } by { Prim.hlevel props },
}

impl<'a> NamedMap<'a> {
    ghost use Rattle.cbor_maps.specs.NamedMap.{whole_map, names_of};

    /// The map with a table of at most 8 names. An item that is no map has nothing under any name.
    pub fn new(map: &View<'a>, names: &'a [KeyName]) -> NamedMap<'a>
        requires { length names.now ≤ 8 }
        ensures map { whole_map result ≡ part map.now }
        ensures names { names_of result ≡ names.now }
    {
        let found = find_all(map, names);
        NamedMap {
            map: *map,
            names,
            found,
        }
    }

    /// Refuses the first name, in the order of the table, that is there twice (RFC 8949, section 5.6).
    pub fn distinct(&self) -> Result<(), MapFault>
        ensures { Gives (λ u. tt) result (distinct (names_of self.now) (whole_map self.now)) }
    {
        for (place, name) in self.names.iter().enumerate() {
            match self.at(place) {
                Found::Missing | Found::Once(_) => {}
                Found::Twice => return Err(MapFault::Doubled(*name)),
            }
        }
        Ok(())
    }

    /// What is under the name at that place of the table.
    fn at(&self, place: usize) -> Found<'a>
        requires { place < length (names_of self.now) }
        ensures { seen result ≡ entry (whole_map self.now) (name_at (names_of self.now) place) }
    {
        let found = &self.found[..];
        found[place]
    }

    /// What is under a name.
    #[tactic(auto, unfolding(crate::specs::Reading::entry))]
    fn found_under(&self, name: KeyName) -> Found<'a>
        ensures { seen result ≡ entry (whole_map self.now) name }
    {
        for (place, own) in self.names.iter().enumerate() {
            if *own == name {
                return self.at(place);
            }
        }
        match self.map.entry(Key::Text(name.text())) {
            Ok(None) => Found::Missing,
            Ok(Some(value)) => Found::Once(value),
            Err(_) => Found::Twice,
        }
    }

    /// The value under a name, of whatever kind.
    pub fn item(&self, name: KeyName) -> Result<View<'a>, MapFault>
        ensures exact { Gives part result (field name any_in (whole_map self.now)) }
        ensures stands_in { IfOk result (λ v. LiesIn (whole_map self.now) (part v)) }
    {
        match self.found_under(name) {
            Found::Once(value) => Ok(value),
            Found::Missing => Err(MapFault::Field(name)),
            Found::Twice => Err(MapFault::Doubled(name)),
        }
    }

    /// The unsigned number under a name.
    pub fn uint(&self, name: KeyName) -> Result<u64, MapFault>
        ensures { Gives (λ n. n) result (field name uint_in (whole_map self.now)) }
    {
        needed!(self, name, value => value.uint())
    }

    /// The truth value under a name.
    pub fn boolean(&self, name: KeyName) -> Result<bool, MapFault>
        ensures { Gives (λ b. b) result (field name boolean_in (whole_map self.now)) }
    {
        needed!(self, name, value => value.boolean())
    }

    /// The string of bytes under a name.
    pub fn bytes(&self, name: KeyName) -> Result<&'a [u8], MapFault>
        ensures exact { Gives (λ b. b.now) result (field name bytes_in (whole_map self.now)) }
        ensures stands_in { IfOk result (λ b. IsPart (whole_map self.now).bytes b.now) }
    {
        needed!(self, name, value => value.bytes())
    }

    /// The text under a name.
    pub fn text(&self, name: KeyName) -> Result<&'a str, MapFault>
        ensures exact { Gives (λ t. t.now) result (field name text_in (whole_map self.now)) }
        ensures stands_in { IfOk result (λ t. IsPart (whole_map self.now).bytes t.now) }
    {
        needed!(self, name, value => value.text())
    }

    /// The items of the array under a name.
    pub fn items(&self, name: KeyName) -> Result<Items<'a>, MapFault>
        ensures exact { Gives left result (field name items_in (whole_map self.now)) }
        ensures stands_in { IfOk result (λ it. AllLieIn (whole_map self.now) (left it)) }
    {
        needed!(self, name, value => value.items())
    }

    /// The map under a name.
    pub fn map(&self, name: KeyName) -> Result<View<'a>, MapFault>
        ensures exact { Gives part result (field name map_in (whole_map self.now)) }
        ensures stands_in { IfOk result (λ v. LiesIn (whole_map self.now) (part v)) }
    {
        needed!(self, name, value => if_map(value))
    }

    /// The bytes of encoded CBOR under a name: a string under tag 24 (RFC 8949, section 3.4.5.1).
    pub fn encoded(&self, name: KeyName) -> Result<&'a [u8], MapFault>
        ensures exact { Gives (λ b. b.now) result (field name encoded_in (whole_map self.now)) }
        ensures stands_in { IfOk result (λ b. IsPart (whole_map self.now).bytes b.now) }
    {
        needed!(self, name, value => encoded_bytes(value))
    }

    /// The value under a name that may be missing, of whatever kind.
    pub fn optional_item(&self, name: KeyName) -> Result<Option<View<'a>>, MapFault>
        ensures exact { Gives (option_map part) result (optional_field name any_in (whole_map self.now)) }
        ensures stands_in { IfOk result (λ found. IfSome found (λ v. LiesIn (whole_map self.now) (part v))) }
    {
        match self.found_under(name) {
            Found::Once(value) => Ok(Some(value)),
            Found::Missing => Ok(None),
            Found::Twice => Err(MapFault::Doubled(name)),
        }
    }

    /// The unsigned number under a name that may be missing.
    pub fn optional_uint(&self, name: KeyName) -> Result<Option<u64>, MapFault>
        ensures { Gives (λ n. n) result (optional_field name uint_in (whole_map self.now)) }
    {
        allowed!(self, name, value => value.uint())
    }

    /// The string of bytes under a name that may be missing.
    pub fn optional_bytes(&self, name: KeyName) -> Result<Option<&'a [u8]>, MapFault>
        ensures exact { Gives (option_map (λ b. b.now)) result (optional_field name bytes_in (whole_map self.now)) }
        ensures stands_in { IfOk result (λ found. IfSome found (λ b. IsPart (whole_map self.now).bytes b.now)) }
    {
        allowed!(self, name, value => value.bytes())
    }
}
