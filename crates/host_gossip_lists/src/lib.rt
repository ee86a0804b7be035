// The C ABI's calls with the array of orders 6 and 7, as lists: what a host gets from one after the other on one table and one array.
// Statements in specs/, proofs in proofs/. No code stands here.
#![tactic(auto)]
