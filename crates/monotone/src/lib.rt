// A better score never loses the place (02, order 13), of the five steps of mesh maintenance. No code.
#![tactic(auto)]
