// What a host asks a call with, and the number beside its answer (docs/IMAGES.md): the key of a shard by its collection's name and its
// number, 8 bytes for the number, where there is room, and why a call is refused. Internal: what the calls over byte images share.
#![tactic(auto)]

pub mod answer;
pub mod named;
pub mod refusal;
