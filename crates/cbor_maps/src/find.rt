//! One walk over the pairs of a map.

ghost use Rattle.std.specs.Prelude.{◌≡◌, ℕ, ◌<◌, ◌≤◌, length};
ghost use Rattle.cbor_view.specs.View.{part};
ghost use Rattle.cbor_maps.specs.Reading.{entry};
ghost use Rattle.cbor_maps.specs.Found.{seen, added, noted, found_at, name_at};

use crate::found::Found;
use cbor_view::View;
use mdoc_outside::KeyName;

/// The most names that a table may have.
pub(crate) const MOST_NAMES: usize = 8;

/// With one value more under the key.
fn added<'a>(found: Found<'a>, value: View<'a>) -> Found<'a>
    ensures { result ≡ added found.entry value.entry }
{
    match found {
        Found::Missing => Found::Once(value),
        Found::Once(_) => Found::Twice,
        Found::Twice => Found::Twice,
    }
}

/// Notes a pair of the map under each name that its key is.
fn note<'a>(found: &mut [Found<'a>; 8], names: &[KeyName], key: &[u8], value: View<'a>)
    requires { length names.now ≤ 8 }
    ensures { (i : ℕ) → i < length names.now → found_at found.new i ≡ noted (name_at names.now i) key.now value.entry (found_at found.old i) }
{
    for (place, name) in names.iter().enumerate() {
        if key == name.text().as_bytes() {
            found[place] = added(found[place], value);
        }
    }
}

/// What is under each of the names, in one walk over the pairs.
pub(crate) fn find_all<'a>(map: &View<'a>, names: &[KeyName]) -> [Found<'a>; 8]
    requires { length names.now ≤ 8 }
    ensures { (i : ℕ) → i < length names.now → seen (found_at result i) ≡ entry (part map.now) (name_at names.now i) }
{
    let mut found = [Found::Missing; 8];
    let Some(pairs) = map.pairs() else {
        return found;
    };
    for (key, value) in pairs {
        if let Some(text) = key.text_bytes() {
            note(&mut found, names, text, value);
        }
    }
    found
}
