// The residual network of packed arcs: definitions and laws alone.
#![tactic(auto)]
