// The live counts of clean frames, in specs/, and in proofs/ those and the counts of frames with one flipped data bit: trees that the checker
// computes, and what follows for every word. There is no code here. It is a crate of its own so that the trees aren't computed again for each
// edit of another crate.
#![tactic(auto)]
