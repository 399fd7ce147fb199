// Codecs: how a value is written and read, said once, with the proof that each undoes the other.
// Promises, as theorems (proofs/): reading undoes writing, writing undoes reading, for every codec made of these parts.
// Builds on nothing.
#![tactic(auto)]
