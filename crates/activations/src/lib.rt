// Activations: checked and lowered, in the order of the Rust.
#![tactic(auto)]

pub mod made_names; // the names that lowering makes
pub mod cells; // tables of 16-bit words
pub mod pack_info; // what is known of a pack as a whole
pub mod expr_node; // the nodes of an expression, one by one
pub mod parts; // where the parts of activations stand
pub mod checks; // what is refused before `last` is sought
pub mod types; // types of variables, defaults of types, and their defaults
pub mod find_lasts; // the variables that calls of `last` ask for
pub mod name_ids; // names by number
pub mod holders; // holders: their types and their equations
pub mod flags; // the flags and guards of branches
pub mod free_vars; // what an equation of a scope reads
pub mod rewrite_last; // expressions with calls of `last` replaced
pub mod over_samples; // right sides over samples
pub mod scopes; // the equations of scopes
pub mod merges; // outputs, merged from the scopes
pub mod locals; // locals, written, counted and left to the next activation
pub mod lower; // an activation prepared; all its equations
pub mod owners; // the table of activations, and whose they are
pub mod verdicts; // all activations judged, node by node
pub mod report; // the report of what is refused
pub mod added; // what activations add to nodes
pub mod nodes; // the nodes of the lowered package
pub mod sections; // the lowered package, section by section
pub mod call; // the call
