// Laws for signed numbers, which every crate above cites: orders, sums and products of integers for `omega` and `simp`,
// bounds that rule out overflow, outward division, big-endian two's complement, and lists. No functions: specs/ has the
// definitions, proofs/ the laws, and proofs/Goals.antt a worked use of each.
#![tactic(auto)]
