//! Why a line of a script is refused.

use hp_script::Name;

/// Why a line of a script is refused. Forms, edges, hyperplanes and columns are numbered from 1.
#[derive(Drop)]
pub enum Refusal {
    /// The line stops being a command at this column.
    Syntax(u32),
    /// No field is chosen yet.
    NoField,
    /// A field is chosen already.
    FieldTwice,
    /// This number is none of the listed primes.
    FieldNotListed(u64),
    /// No arrangement has this name.
    UnknownName(Name),
    /// An arrangement has this name already.
    NameTaken(Name),
    /// The dimension is out of range, or a row has not as many numbers as it.
    Dimension,
    /// There is no hyperplane or generator of this number.
    BadIndex(u64),
    /// This edge is a loop, has an end that is no vertex, or joins what an earlier edge joins.
    BadGraph(u32),
    /// This form is zero.
    ZeroForm(u32),
    /// These two forms are proportional, the second being the first that is so to an earlier one.
    Repeated(u32, u32),
    /// There are this many forms, which are too many.
    TooMany(u32),
    /// A list has not one number for each hyperplane, or a number out of range.
    BadList,
    /// A limit is out of range.
    BadLimit,
}
