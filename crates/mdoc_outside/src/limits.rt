//! The limits that several crates keep, beside the names by which an exceeded one is reported (`LimitName`).

/// The most bytes of a file, of a store that is written and of a package (`FileBytes`, `PackageBytes`).
pub const MOST_FILE_BYTES: usize = 16_777_216;

/// The most documents of a store and of a request (`Documents`).
pub const MOST_DOCUMENTS: usize = 16;

/// The most namespaces of a copy (`Namespaces`).
pub const MOST_NAMESPACES: usize = 16;

/// The most items of a copy, in all its namespaces (`Items`).
pub const MOST_ITEMS: usize = 512;

/// The most copies of a document (`Copies`).
pub const MOST_COPIES: usize = 64;

/// The most bytes of an element's value (`Value`).
pub const MOST_VALUE_BYTES: usize = 262_144;

/// The most bytes of a name: of a document type, a namespace or an element (`Name`).
pub const MOST_NAME_BYTES: usize = 128;

/// The most roots of a file (`Roots`).
pub const MOST_ROOTS: usize = 64;

/// The most bytes of a certificate in a line of a file.
pub const MOST_CERTIFICATE_BYTES: usize = 8192;

/// The most wishes of one document of a request (`Wishes`).
pub const MOST_WISHES_OF_DOCUMENT: usize = 512;

/// The most wishes of a request, in all its documents (`Wishes`).
pub const MOST_WISHES: usize = 2048;

/// The most fragments of one message (`Fragments`).
pub const MOST_FRAGMENTS: u32 = 65_536;

/// The most bytes of one message, the leading bytes of its fragments not counted.
pub const MOST_MESSAGE_BYTES: usize = 1_048_576;
