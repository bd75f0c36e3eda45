// Two columns arranged by rising elements (paper 01, 'Nearest objects'): the same pairs in an order that makes the walk over
// them quick. Only time depends on that order, so all that is proved of it is that every pair is still there.
#![tactic(auto)]

pub mod arrange;
