// Machines: resolved, checked and lowered, in the order of the Rust.
#![tactic(auto)]

pub mod checked_read; // total readers on a checked pack
pub mod table; // names and machines by name index
pub mod drawing; // a pack with what is kept of what was read of it
pub mod memo; // what is read once of equations, guards, regions and states
pub mod resolve; // resolving, which counts states and makes no tree
pub mod layout; // a resolved machine in three tables
pub mod duplicates; // a state's name that stands twice
pub mod validate; // initial states and targets
pub mod cover; // whether a resolved machine's states give an output
pub mod verdicts; // whether each machine is accepted
pub mod owners; // the nodes that machines go to
pub mod report; // the report of refused machines
pub mod made_names; // the names that lowering makes, and qualified names
pub mod next_state_chain; // the next state of a region
pub mod emit_region; // enums, locals and equations of regions
pub mod value_of; // the values of outputs
pub mod emit_machine; // what is written of machines that are laid out again
pub mod added; // what machines add to nodes: counts, locals
pub mod write_nodes; // nodes with all that goes to them
pub mod sections; // all that follows the names
pub mod call; // lowering a pack's machines
