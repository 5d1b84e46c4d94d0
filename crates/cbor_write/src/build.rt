// Bytes of CBOR that are being written.
ghost use Rattle.std.specs.Prelude.{◌≡◌, ◌^◌, ◌<◌, ◌≤◌, ℕ, List, [], ◌++◌, length, IfOk, OnOk, OnErr};
ghost use Rattle.cbor_view.specs.Shortest.{boolean_bytes, bytes_bytes, int_bytes, null_bytes, shortest_head, text_bytes, uint_bytes};
ghost use Rattle.cbor_view.specs.View.{part};

use cbor_view::View;
use mdoc_outside::{Memory, Octets};
use std::alloc::Global;
use std::marker::Model;

// The major types of RFC 8949, section 3.1.
const UNSIGNED: u8 = 0;

const NEGATIVE: u8 = 1;

const BYTES: u8 = 2;

const TEXT: u8 = 3;

const ARRAY: u8 = 4;

const MAP: u8 = 5;

const TAG: u8 = 6;

const SIMPLE: u8 = 7;

// The simple values of section 3.3.
const FALSE: u64 = 20;

const TRUE: u64 = 21;

const NULL: u64 = 22;

/// Bytes of CBOR that are being written, which a contract sees as the list of them. The caller sees to it
/// that a count is followed by so many items.
#[derive(Drop)]
pub struct Build {
    bytes: Vec<u8>,
}

impl Model for Build {
    ghost Value = { List ℕ };

    ghost view = { λ b. b.bytes.items };
}

impl Build {
    /// No bytes yet; takes no memory.
    pub fn new(alloc: Global) -> Build
        ensures { result ≡ [] }
    {
        Build {
            bytes: Vec::new(alloc),
        }
    }

    /// No bytes yet, with room for so many: while no more are appended, none are moved.
    pub fn with_room(alloc: Global, room: usize) -> Result<Build, Memory>
        ensures { IfOk result (λ b. b ≡ []) }
    {
        let bytes = Vec::with_capacity(alloc, room)?;
        Ok(Build { bytes })
    }

    /// Appends an unsigned number (major type 0).
    pub fn uint(&mut self, n: u64) -> Result<(), Memory>
        ensures ok { OnOk result (self.new ≡ self.old ++ uint_bytes n) }
        ensures err { OnErr result (self.new ≡ self.old) }
    {
        self.head(UNSIGNED, n)
    }

    /// Appends an integer of either sign (major types 0 and 1).
    pub fn int(&mut self, n: i64) -> Result<(), Memory>
        ensures ok { OnOk result (self.new ≡ self.old ++ int_bytes n) }
        ensures err { OnErr result (self.new ≡ self.old) }
    {
        if n < 0 {
            self.head(NEGATIVE, (-1 - n) as u64)
        } else {
            self.head(UNSIGNED, n as u64)
        }
    }

    /// Appends a string of bytes (major type 2). One of 2^32 bytes or more has no spelling here, and is answered
    /// by want of memory.
    pub fn bytes(&mut self, bytes: &[u8]) -> Result<(), Memory>
        ensures ok { OnOk result (self.new ≡ self.old ++ bytes_bytes bytes.now) }
        ensures short { OnOk result (length bytes.now < 2 ^ 32) }
        ensures err { OnErr result (self.new ≡ self.old) }
    {
        self.string(BYTES, bytes)
    }

    /// Appends a text (major type 3). One of 2^32 bytes or more has no spelling here, and is answered by
    /// want of memory.
    pub fn text(&mut self, text: &str) -> Result<(), Memory>
        ensures ok { OnOk result (self.new ≡ self.old ++ text_bytes text.now) }
        ensures short { OnOk result (length text.now < 2 ^ 32) }
        ensures err { OnErr result (self.new ≡ self.old) }
    {
        self.string(TEXT, text.as_bytes())
    }

    /// Appends the head of an array of so many items (major type 4).
    pub fn array(&mut self, count: u32) -> Result<(), Memory>
        ensures ok { OnOk result (self.new ≡ self.old ++ shortest_head 4 count) }
        ensures err { OnErr result (self.new ≡ self.old) }
    {
        self.head(ARRAY, u64::from(count))
    }

    /// Appends the head of a map of so many pairs of a key and a value (major type 5).
    pub fn map(&mut self, count: u32) -> Result<(), Memory>
        ensures ok { OnOk result (self.new ≡ self.old ++ shortest_head 5 count) }
        ensures err { OnErr result (self.new ≡ self.old) }
    {
        self.head(MAP, u64::from(count))
    }

    /// Appends the head of a tag, on the item that comes next (major type 6).
    pub fn tag(&mut self, tag: u64) -> Result<(), Memory>
        ensures ok { OnOk result (self.new ≡ self.old ++ shortest_head 6 tag) }
        ensures err { OnErr result (self.new ≡ self.old) }
    {
        self.head(TAG, tag)
    }

    /// Appends a truth value (section 3.3).
    pub fn boolean(&mut self, value: bool) -> Result<(), Memory>
        ensures ok { OnOk result (self.new ≡ self.old ++ boolean_bytes value) }
        ensures err { OnErr result (self.new ≡ self.old) }
    {
        self.head(SIMPLE, if value { TRUE } else { FALSE })
    }

    /// Appends null (section 3.3).
    pub fn null(&mut self) -> Result<(), Memory>
        ensures ok { OnOk result (self.new ≡ self.old ++ null_bytes) }
        ensures err { OnErr result (self.new ≡ self.old) }
    {
        self.head(SIMPLE, NULL)
    }

    /// Appends a view's item as the very bytes that spell it.
    pub fn raw(&mut self, view: &View<'_>) -> Result<(), Memory>
        ensures ok { OnOk result (self.new ≡ self.old ++ (part view.now).bytes) }
        ensures err { OnErr result (self.new ≡ self.old) }
    {
        self.append(view.raw())
    }

    /// The bytes that were written, without taking memory.
    pub fn finish(self) -> Octets
        ensures { result ≡ self }
    {
        let Build { bytes } = self;
        Octets::from_vec(bytes)
    }

    /// Appends bytes as they are: the caller sees to it that they spell what is to stand there.
    pub fn append(&mut self, bytes: &[u8]) -> Result<(), Memory>
        ensures ok { OnOk result (self.new ≡ self.old ++ bytes.now) }
        ensures err { OnErr result (self.new ≡ self.old) }
    {
        self.bytes.extend_from_slice(bytes)?;
        Ok(())
    }

    // Appends the shortest head of a major type with its argument (RFC 8949, section 4.2.1).
    fn head(&mut self, major: u8, argument: u64) -> Result<(), Memory>
        requires { major ≤ 7 }
        ensures ok { OnOk result (self.new ≡ self.old ++ shortest_head major argument) }
        ensures err { OnErr result (self.new ≡ self.old) }
    {
        let first = 32 * major;
        if argument < 24 {
            self.append(&[first + argument as u8])
        } else if argument < 1 << 8 {
            self.append(&[first + 24, argument as u8])
        } else if argument < 1 << 16 {
            let [a, b] = (argument as u16).to_be_bytes();
            self.append(&[first + 25, a, b])
        } else if argument < 1 << 32 {
            let [a, b, c, d] = (argument as u32).to_be_bytes();
            self.append(&[first + 26, a, b, c, d])
        } else {
            let [a, b, c, d, e, f, g, h] = argument.to_be_bytes();
            self.append(&[first + 27, a, b, c, d, e, f, g, h])
        }
    }

    // Appends a string: the head with its length, and its bytes.
    fn string(&mut self, major: u8, bytes: &[u8]) -> Result<(), Memory>
        requires { major ≤ 7 }
        ensures ok { OnOk result (self.new ≡ self.old ++ (shortest_head major (length bytes.now) ++ bytes.now)) }
        ensures short { OnOk result (length bytes.now < 2 ^ 32) }
        ensures err { OnErr result (self.new ≡ self.old) }
    {
        if bytes.len() >= 1 << 32 {
            return Err(Memory);
        }
        let start = self.bytes.len();
        self.head(major, bytes.len() as u64)?;
        let appended = self.append(bytes);
        if appended.is_err() {
            self.bytes.truncate(start);
        }
        appended
    }
}
