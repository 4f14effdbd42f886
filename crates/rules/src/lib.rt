// The whole-frame page: what a command frame that finds the device idle comes to. No code, only definitions and what follows from
// them; the machine of steps stands above it.

#![tactic(auto)]
