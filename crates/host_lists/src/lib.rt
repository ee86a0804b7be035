// The C ABI's calls as lists: what a host gets from one after the other on one table. Statements in specs/, proofs in proofs/. No code
// stands here.
#![tactic(auto)]
