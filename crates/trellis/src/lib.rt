// The encoder's states and the paths through them, forwards and backwards; counts kept along a path, with which a checker computes each step
// cheaply; and that a search along them misses no state within a weight. All in proofs/, for `live_counts` and `least_distance`. There is no
// code here.
#![tactic(auto)]
