// Definitions and proofs alone: what a network is, and why a certificate is right.
#![tactic(auto)]
