// The byte image of one log store (paper 01, 'The log'; docs/IMAGES.md): read into the columns that the calls of a replica take, and
// written back where a call changed it. A host owns the images; the eight stores of a node lie side by side, and every function is handed
// the whole slice with the place where its store begins. Internal: what the entry points over bytes share.
#![tactic(auto)]

pub mod write;
