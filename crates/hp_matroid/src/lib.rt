//! The laws of Möbius values, of sets without broken circuit and of triples, for any closure and rank that obey the
//! laws of a matroid. Lemmas alone: there is no function here.
#![tactic(auto)]
