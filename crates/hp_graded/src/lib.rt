//! Graded submodules: parts of vectors, submodules in the first variables, reduced bases, and which generators of a list
//! the ones before them generate. Definitions and laws alone.
#![tactic(auto)]
