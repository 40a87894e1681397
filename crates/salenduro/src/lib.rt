// The library for C and Rust hosts. `controller`: report, plan and move over a record in the caller's bytes. `buffers`: every
// call over buffers that the host keeps itself. Every answer is a number (model/specs/Numbers); include/salenduro.h declares them.

#![tactic(auto)]

pub mod buffers;
pub mod controller;
pub mod heads;
pub mod numbers;
