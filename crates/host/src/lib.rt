// The engine's entry points for hosts in C and C++ (include/catalogue.h; paper 01, 'What changes shape'): numbers and byte slices, and the state in
// byte images that the host owns (docs/IMAGES.md). Each is the call of the crate that its contract cites. Crate host_c gives them to the linker.
#![tactic(auto)]

pub mod clients;
pub mod counts;
pub mod headers;
pub mod ids;
pub mod join;
pub mod losses;
pub mod maps;
pub mod peers;
pub mod position;
pub mod version;
pub mod words;
pub mod workers;
