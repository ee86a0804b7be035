// Lists of all calls, orders 6 and 7 with 01's, and what is shown of every one of them: statements in specs/, proofs in proofs/. No code
// stands here.
#![tactic(auto)]
