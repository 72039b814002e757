// Prefixes of the code, their disagreements with received bits, the live count and the nearest word: definitions in specs/ and their laws
// in proofs/, for repair. There is no code here.
#![tactic(auto)]
