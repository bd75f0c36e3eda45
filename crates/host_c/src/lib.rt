// The entry points of crate host, under their names for the linker of C and C++ (include/catalogue.h): built as the static library libhost.a. Each
// says what host's function of its name says, and calls it.
#![tactic(auto)]

pub mod clients;
pub mod counts;
pub mod headers;
pub mod ids;
pub mod join;
pub mod losses;
pub mod maps;
pub mod peers;
pub mod position;
pub mod version;
pub mod words;
pub mod workers;
