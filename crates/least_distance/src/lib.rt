// The code's least distance, 28: the statement in specs/, and its proof, of which the checker computes the greater part. There is no code
// here. It is a crate of its own so that this is computed once, and not again for each edit of another crate.
#![tactic(auto)]
