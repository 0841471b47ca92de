//! Marks: where each expression and each statement of a program's batches is performed.
//!
//! The rules stand in `specs/Marks` of `rb_meaning_flow`. What the walks here compute, flag by flag,
//! stands in `specs/Passes`; `proofs/` shows that it is what the rules say.
#![tactic(auto)]

mod batch;
mod declared;
mod facts;
mod index;
mod laws;
mod marks;
mod outermost;
mod places;
mod portable;

pub use batch::Batch;
pub use declared::{Declared, bind_declared};
pub use facts::{Facts, has_primitive_items, is_primitive};
pub use index::{Marks, mark};
pub use laws::{
    each_expression_has_its_mark, each_statement_has_its_place,
    remote_expressions_stand_in_the_script,
};
pub use portable::{
    block_holds, branches_hold, holds_call, holds_operation, is_constant, is_portable,
};
