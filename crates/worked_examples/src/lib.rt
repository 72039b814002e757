// The worked examples: one table (specs/Table.antt) under one statement (proofs/Agrees.antt). No code.
#![tactic(auto)]
