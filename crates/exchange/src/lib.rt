// Theorems over both ends: what the host builds, the device takes, and what the device replies, the host reads. Proofs in proofs/; no
// code.

#![tactic(auto)]
