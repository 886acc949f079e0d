// The limits that the code knows, each named here and nowhere else (01-scope.md, "Sizes").

// The bytes of an encoding, at most.
pub const MAX_BYTES: usize = 2048;

// The levels of a shape, at most.
pub const MAX_LEVELS: usize = 16;

// The entries of a sheet, at most.
pub const MAX_ENTRIES: usize = 32;

// The bytes of a sheet's encodings, at most.
pub const MAX_ENCODINGS: usize = 16384;

// The nodes of a table, at most.
pub const MAX_NODES: usize = 6144;

// The links of a table, at most.
pub const MAX_LINKS: usize = 6144;

// The names of a table, at most.
pub const MAX_NAMES: usize = 2048;

// The bytes of a table's text, at most.
pub const MAX_TEXT: usize = 2048;
