// Worked examples: what the second guard gives (reference/examples.txt and limits.txt), proved of the definitions. The files in
// proofs/ are written by `print_proofs` of reference/. There is no code here.
#![tactic(auto)]
