// The theorem on a live line of bytes that is killed at any time and started again. No code.
#![tactic(auto)]
