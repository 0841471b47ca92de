//! The variables in scope where batches stand, found by name.
//!
//! An [`OuterScope`] grows as a walk goes through code outside of batches. Where a batch begins it opens a [`Scope`], which sees
//! the same variables: they are shared and not copied, so many batches in the scope of many variables cost no more than both.
#![tactic(auto)]

mod assigned;
mod outer;
mod scope;
mod segments;
mod variables;

pub use outer::OuterScope;
pub use scope::Scope;
