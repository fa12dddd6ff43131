// Nothing to run: the definitions and laws that every other crate uses.
#![tactic(auto)]
