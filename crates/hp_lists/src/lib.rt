//! Lists: the type that public structs and enums hold them in, the words on lists that definitions use, and what is
//! known of members, order, ranges, sums, words over a list and the pigeonhole.
#![tactic(auto)]

mod list;

pub use list::List;
