// Definitions and proofs alone: the worked examples R1 to R10, L1, L2, P1 and P2.
#![tactic(auto)]
