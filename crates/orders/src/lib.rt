// Orders of calls: what the device would be if every frame that found it idle had run whole, and that it is so. Definitions in specs/,
// theorems in proofs/; no code.

#![tactic(auto)]
