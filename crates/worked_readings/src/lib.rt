// What the second guard answers for its worked examples by readings (reference/examples.txt and limits.txt), proved of the definitions. No
// code and no definition stands on it.
#![tactic(auto)]
