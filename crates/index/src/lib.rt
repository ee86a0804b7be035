// Tests, searches, counts and walks over indices, as definitions of specs/ with their laws in proofs/: every other crate uses them, so that
// nothing generic is written twice.
#![tactic(auto)]
