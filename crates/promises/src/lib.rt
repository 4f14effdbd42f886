// What the labs rely on: demand 3, the examples of document 01, and that it ends. Definitions in specs/, theorems in proofs/; no code.

#![tactic(auto)]
