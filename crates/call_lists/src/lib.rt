// Lists of calls, demand 3 about every one of them, and the program's calls as such lists: statements in specs/, proofs in proofs/. No code
// stands here.
#![tactic(auto)]
