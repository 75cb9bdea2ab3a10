// The lifted step and the reach (document 01, "One lifted step"): definitions, and what follows of them. proofs/Sound has that
// the boxes hold every state that the machine can reach, proofs/Count how many rounds that takes. There is no code here:
// `boxes_step` and `boxes` have it.
#![tactic(auto)]
