//! The script language: its grammar, and the commands of a script.
//!
//! Lines end at a line feed. A `#` and all that follows it in its line is a comment; space, tab and carriage return are blanks. The rest of a line is
//! cut from left to right into tokens, each as long as it can be: a WORD is a letter followed by letters, digits and `_`; a NUM is one to ten
//! digits; `[`, `]`, `,`, `=`, `+`, `-` and `*` are symbols. A longer run of digits, and any other byte, is a token that fits no place.
//!
//! A line without tokens is no command. Every other line is one command:
//!
//! ```text
//! command  = "field" NUM | "let" WORD "=" build | "limit" "pairs" NUM | "limit" "degree" NUM
//!          | "hyperplanes" WORD | "point" WORD | "rank" WORD | "flats" WORD
//!          | "poincare" WORD | "characteristic" WORD | "triple" WORD NUM
//!          | "circuits" WORD | "nbc" WORD | "normal" WORD expr | "aomoto" WORD list
//!          | "gb" WORD list? | "der" WORD list? | "resolve" WORD list? | "free" WORD list?
//! build    = "forms" NUM rows | "cone" NUM rows
//!          | "typeA" NUM | "typeB" NUM | "typeD" NUM | "boolean" NUM
//!          | "graphic" NUM edges | "delete" WORD NUM | "restrict" WORD NUM
//! rows     = "[" "]" | "[" row { "," row } "]"
//! row      = INT { INT }
//! edges    = "[" { NUM "-" NUM } "]"
//! list     = "[" { INT } "]"
//! INT      = NUM | "-" NUM
//! expr     = product { ( "+" | "-" ) product } | "-" product { ( "+" | "-" ) product }
//! product  = factor { "*" factor }
//! factor   = NUM | GEN
//! GEN      = a WORD that is the letter e followed by one to ten digits
//! ```
//!
//! The column of a line outside the grammar is found from the longest prefix of its tokens that begins some command. Where a token follows, it is
//! that token's first byte; where none does, it is one past the last byte of the last token.
#![tactic(auto)]

mod builds;
mod command;
mod commands;
mod cut;
mod digits;
mod expressions;
mod fault;
mod lines;
mod name;
mod numbers;
mod rows;
mod script;
mod token;
mod words;

pub use command::{Build, Command, Line, Product, Question, ScriptFault};
pub use name::{Name, Row};
pub use script::{MAX_BYTES, parse};
