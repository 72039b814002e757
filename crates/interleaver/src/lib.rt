// The interleaver: the place of each coded bit in a frame, and the index of each place's coded bit.
// Each table is handed out whole: a caller takes it once, before its loop, as a table that is read
// entry by entry is copied for each.
// Two constant tables and two names, though each gives the other: a project rule names this form.
#![tactic(auto)]

pub mod indexes;
pub mod places;
