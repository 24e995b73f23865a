// What a run of equations is, the plain chart, the scopes of an activation, and what is presupposed of a run: definitions and what
// they compute, no code.
#![tactic(auto)]
