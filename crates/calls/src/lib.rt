// The calls, a file each. Each takes every input: its tests come first, in the order of document 01's table, and a refusal
// writes nothing. Beside each call stands its core, for whoever has shown that the tests pass; a core is no entry point.
// (Ground, learned and link are three parameters: `&` and `&mut` say which of them a call may write, and C lends them so.)

#![tactic(auto)]

pub mod advance;
pub mod layout;
pub mod list;
pub mod plan;
pub mod report;
