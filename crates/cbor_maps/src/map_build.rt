//! A map with named keys that is being written.

ghost use Rattle.std.specs.Prelude.{◌≡◌, ◌++◌, ◌<◌, ◌^◌, ℕ, List, length, IfOk, OnOk, Some, option_map};
ghost use Rattle.cbor_view.specs.Shortest.{boolean_bytes, bytes_bytes, text_bytes, uint_bytes};
ghost use Rattle.cbor_view.specs.View.{part};
ghost use Rattle.cbor_maps.specs.Labels.{label_bytes, put_labelled};
ghost use Rattle.cbor_maps.specs.Writing.{put, key_bytes, map_head, encoded_bytes};

use cbor_view::{ENCODED, View};
use cbor_write::Build;
use mdoc_outside::{KeyName, Memory, Octets};
use std::alloc::Global;
use std::marker::Model;

/// A map that is being written, field by field, which a contract sees as the bytes so far. A call that
/// wants memory gives it up.
#[derive(Drop)]
pub struct MapBuild {
    out: Build,
}

impl Model for MapBuild {
    ghost Value = { List ℕ };

    ghost view = { λ b. b.out };
}

impl MapBuild {
    /// The head of a map of so many fields; the caller sees to it that so many follow.
    #[tactic(auto, unfolding(crate::specs::Writing::map_head))]
    pub fn new(alloc: Global, count: u32) -> Result<MapBuild, Memory>
        ensures { IfOk result (λ b. b ≡ map_head count) }
    {
        let mut out = Build::new(alloc);
        out.map(count)?;
        Ok(MapBuild { out })
    }

    /// A key, whose value the next call writes.
    #[tactic(auto, unfolding(crate::specs::Writing::key_bytes))]
    fn key(self, name: KeyName) -> Result<Build, Memory>
        ensures { IfOk result (λ b. b ≡ self ++ key_bytes name) }
    {
        let MapBuild { mut out } = self;
        out.text(name.text())?;
        Ok(out)
    }

    /// A field with an unsigned number.
    pub fn uint(self, name: KeyName, number: u64) -> Result<MapBuild, Memory>
        ensures { IfOk result (λ b. b ≡ put self name (Some (uint_bytes number))) }
    {
        let mut out = self.key(name)?;
        out.uint(number)?;
        Ok(MapBuild { out })
    }

    /// A field with a truth value.
    pub fn boolean(self, name: KeyName, value: bool) -> Result<MapBuild, Memory>
        ensures { IfOk result (λ b. b ≡ put self name (Some (boolean_bytes value))) }
    {
        let mut out = self.key(name)?;
        out.boolean(value)?;
        Ok(MapBuild { out })
    }

    /// A field with a string of bytes.
    pub fn bytes(self, name: KeyName, bytes: &[u8]) -> Result<MapBuild, Memory>
        ensures written { IfOk result (λ b. b ≡ put self name (Some (bytes_bytes bytes.now))) }
        ensures short { OnOk result (length bytes.now < 2 ^ 32) }
    {
        let mut out = self.key(name)?;
        out.bytes(bytes)?;
        Ok(MapBuild { out })
    }

    /// A field with a text.
    pub fn text(self, name: KeyName, text: &str) -> Result<MapBuild, Memory>
        ensures written { IfOk result (λ b. b ≡ put self name (Some (text_bytes text.now))) }
        ensures short { OnOk result (length text.now < 2 ^ 32) }
    {
        let mut out = self.key(name)?;
        out.text(text)?;
        Ok(MapBuild { out })
    }

    /// A field with an item that was read, as the bytes that spell it.
    pub fn item(self, name: KeyName, item: &View<'_>) -> Result<MapBuild, Memory>
        ensures { IfOk result (λ b. b ≡ put self name (Some (part item.now).bytes)) }
    {
        let mut out = self.key(name)?;
        out.raw(item)?;
        Ok(MapBuild { out })
    }

    /// A field with an item that is spelled already, such as a map or an array that was written.
    pub fn spelled(self, name: KeyName, item: &[u8]) -> Result<MapBuild, Memory>
        ensures { IfOk result (λ b. b ≡ put self name (Some item.now)) }
    {
        let mut out = self.key(name)?;
        out.append(item)?;
        Ok(MapBuild { out })
    }

    /// A field with encoded CBOR: a string of bytes under tag 24 (RFC 8949, section 3.4.5.1).
    pub fn encoded(self, name: KeyName, inner: &[u8]) -> Result<MapBuild, Memory>
        ensures written { IfOk result (λ b. b ≡ put self name (Some (encoded_bytes inner.now))) }
        ensures short { OnOk result (length inner.now < 2 ^ 32) }
    {
        let mut out = self.key(name)?;
        out.tag(ENCODED)?;
        out.bytes(inner)?;
        Ok(MapBuild { out })
    }

    /// A field with an unsigned number, left out where there is none.
    pub fn optional_uint(self, name: KeyName, number: Option<u64>) -> Result<MapBuild, Memory>
        ensures { IfOk result (λ b. b ≡ put self name (option_map uint_bytes number)) }
    {
        match number {
            Some(number) => self.uint(name, number),
            None => Ok(self),
        }
    }

    /// A field with a string of bytes, left out where there is none.
    pub fn optional_bytes(self, name: KeyName, bytes: Option<&[u8]>) -> Result<MapBuild, Memory>
        ensures { IfOk result (λ b. b ≡ put self name (option_map (λ x. bytes_bytes x.now) bytes.entry)) }
    {
        match bytes {
            Some(bytes) => self.bytes(name, bytes),
            None => Ok(self),
        }
    }

    /// A field with an item that is spelled already, left out where there is none.
    pub fn optional_spelled(self, name: KeyName, item: Option<&[u8]>) -> Result<MapBuild, Memory>
        ensures { IfOk result (λ b. b ≡ put self name (option_map (λ x. x.now) item.entry)) }
    {
        match item {
            Some(item) => self.spelled(name, item),
            None => Ok(self),
        }
    }

    /// A number as a key, whose value the next call writes.
    #[tactic(auto, unfolding(crate::specs::Labels::label_bytes))]
    fn label(self, number: i64) -> Result<Build, Memory>
        ensures { IfOk result (λ b. b ≡ self ++ label_bytes number) }
    {
        let MapBuild { mut out } = self;
        out.int(number)?;
        Ok(out)
    }

    /// A field under a number, with an unsigned number.
    pub fn labelled_uint(self, label: i64, number: u64) -> Result<MapBuild, Memory>
        ensures { IfOk result (λ b. b ≡ put_labelled self label (Some (uint_bytes number))) }
    {
        let mut out = self.label(label)?;
        out.uint(number)?;
        Ok(MapBuild { out })
    }

    /// A field under a number, with a string of bytes.
    pub fn labelled_bytes(self, label: i64, bytes: &[u8]) -> Result<MapBuild, Memory>
        ensures written { IfOk result (λ b. b ≡ put_labelled self label (Some (bytes_bytes bytes.now))) }
        ensures short { OnOk result (length bytes.now < 2 ^ 32) }
    {
        let mut out = self.label(label)?;
        out.bytes(bytes)?;
        Ok(MapBuild { out })
    }

    /// The bytes of the map.
    pub fn finish(self) -> Octets
        ensures { result ≡ self }
    {
        let MapBuild { out } = self;
        out.finish()
    }
}
