// Counters and the frames that run whole on them: what is compared, and that no counter disturbs another. Definitions in specs/,
// theorems in proofs/; no code.

#![tactic(auto)]
