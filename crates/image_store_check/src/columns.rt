// Where the columns of a store's image begin, counted from the store's own first byte (docs/IMAGES.md); the epochs begin at 0.
pub const OFFSETS: usize = 8192;

pub const IDS: usize = 16384;

pub const CODES: usize = 24576;

pub const LENGTHS: usize = 25600;
// 32 patterns of 4 bytes for each entry.
pub const FLOATS: usize = 26624;

pub const FLOATS_OF_ONE: usize = 128;

pub const KEYS: usize = 157696;

pub const PLACES: usize = 165888;

// As many entries as a log holds, and rows as a table holds.
pub const ENTRIES: usize = 1024;
