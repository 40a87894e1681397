// The record of a state. `save` writes it, `load` reads it; `form` tells whether bytes are one, `fields` reads a field, and
// `places` says where each field begins.

#![tactic(auto)]

mod fields;
pub mod form;
pub mod load;
mod places;
pub mod save;
