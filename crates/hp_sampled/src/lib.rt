//! The sample script is accepted: the lemmas on its lines, its commands and the states between them. It has no code.
#![tactic(auto)]
