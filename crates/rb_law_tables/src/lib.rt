//! The law that a service is read back from its text: its classes as they are printed, the lines of its objects, and that
//! of its root.
//!
//! What the text is, and what is read of it, stands in `specs/Printed`. There is no code here; the laws are functions that
//! do nothing.
#![tactic(auto)]

mod laws;

pub use laws::{printed_tables_read_back, read_services_have_read_classes};
