// The layout of format.rs as a definition (specs/), demand 3 and the stated cases (proofs/). Its code is in
// the crates `plain`, `sink` and `formatter`; `format_tokens` is the call.
#![tactic(auto)]
