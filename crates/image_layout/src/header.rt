// A node's header, how long it is: whose it is, which map it knows, how many shards it holds, when its lease ends (its kind, then its time), its rows.
pub const IMAGE: usize = 10288;

pub const ID: usize = 0;

pub const INCARNATION: usize = 8;

pub const KNOWN: usize = 16;

pub const SHARDS: usize = 24;

pub const LEASE: usize = 36;

pub const LEASE_TIME: usize = 40;

pub const ROWS: usize = 48;

pub const ROW: usize = 1280;

// The parts of a held shard's row, counted from its first byte.
pub const SLOT: usize = 48;

pub const STORED: usize = 56;

pub const EPOCH: usize = 64;

pub const LAST: usize = 72;

pub const HOLDERS: usize = 80;

pub const COUNT: usize = 88;

pub const METRIC: usize = 96;

pub const OWN: usize = 100;

pub const ROLE: usize = 108;

pub const REPLICAS: usize = 128;

pub const PEERS: usize = 256;

pub const PEER: usize = 32;
