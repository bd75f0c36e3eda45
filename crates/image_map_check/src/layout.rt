// A map's image (docs/IMAGES.md): how long it is, where its tables begin, and how long a row of each is.

pub const IMAGE: usize = 26536;

pub const NODES: usize = 40;

pub const NODE: usize = 96;

// Where a node's row has its incarnation, and whether it is alive.
pub const INCARNATION: usize = 8;

pub const ALIVE: usize = 16;

pub const COLLECTIONS: usize = 3112;

pub const COLLECTION: usize = 56;

// The same in words of 8 bytes.
pub const COLLECTION_WORDS: usize = 7;

pub const SHARDS: usize = 4008;

pub const SHARD: usize = 272;

pub const SHARD_WORDS: usize = 34;

pub const SESSIONS: usize = 21416;

pub const SESSION: usize = 80;

// Where the head has the version, and how many rows of each table are in use.
pub const VERSION: usize = 0;

pub const NODES_USED: usize = 8;

pub const COLLECTIONS_USED: usize = 16;

pub const SHARDS_USED: usize = 24;

pub const SESSIONS_USED: usize = 32;
