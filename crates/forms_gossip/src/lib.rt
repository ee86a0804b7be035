// The calls with the array of orders 6 and 7, on a table of the old form: statement in specs/, proof in proofs/. No code stands here.
#![tactic(auto)]
