// How a device gets on, step by step: the laws of its run. What a step keeps of a job, the stores made so far, that it ends, and after
// how many steps. Definitions in specs/, proofs in proofs/; no code.

#![tactic(auto)]
