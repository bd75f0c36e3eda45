// The message layout of paper 01, 'Bytes on the wire': the writer. Every kind is written into a lent buffer, whole
// or not at all: a buffer that is too short is answered so and left as it was, and so is a value that the layout
// cannot carry (specs/Written.antt). What is written is `spec`'s `encode` of the kind. The lists of 10, the table of 21
// and the entries of 22 are handed over as columns. What fits, and the stores of the fields, are crate `wire_put`.
#![tactic(auto)]

use spec::{Epoch, Offset};

pub mod copy;
pub mod create;
pub mod fit;
pub mod message;
pub mod put;
pub mod request;
pub mod table;

// Why a message is not written: a value that the layout cannot carry, or too little room.
#[derive(Clone, Copy, Debug, PartialEq, Eq)]
pub enum Unwritten {
    Unfit,
    Short,
}

// 30 to 33.
#[derive(Clone, Copy)]
pub enum Reply {
    Stored(Offset),
    Gap(Offset),
    StaleEpoch(Epoch),
    Adopted(Offset),
}

// 15 to 18.
#[derive(Clone, Copy)]
pub enum Change {
    Remove,
    Promote,
    Shrink,
    Expand,
}
