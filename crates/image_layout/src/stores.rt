// The bytes of one store, and of the eight.
pub const STORE: usize = 174080;

pub const STORES: usize = 1392640;
