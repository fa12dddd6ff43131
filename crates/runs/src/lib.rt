// Definitions and proofs alone: what whole runs of session steps answer.
#![tactic(auto)]
