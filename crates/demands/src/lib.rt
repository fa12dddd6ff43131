// Definitions and proofs alone: the helper and the panel together.
#![tactic(auto)]
