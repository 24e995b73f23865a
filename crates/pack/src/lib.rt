// The pack format: what a pack is, read, checked and written.
#![tactic(auto)]

pub mod record; // the pack record, with the limits
pub mod cells; // tables of bytes and of 16-bit words
pub mod names; // the name section
pub mod cursor; // lent bytes with an offset in them
pub mod types; // types
pub mod exprs; // expressions
pub mod parts; // ports, equations, transitions
pub mod charts; // states and regions
pub mod sections; // the sections after the names
pub mod check; // the check, and where a pack's sections stand
pub mod siphash; // the number of a name
pub mod distinct; // names told apart as they are read
pub mod table; // a table of names with an index
pub mod intern; // names by number, new ones added in order of first use
pub mod finish; // what was written, copied to the caller's buffer
