//! The unsplit run of an admitted program: code runs in the order of its source, and each remote operation is performed on
//! the table where it stands. Before each batch others may change the table. No script and no forest is made.
//!
//! What a program means so stands in `specs/Meaning.antt` of `rb_meaning`; what is run is proved to be that.
#![tactic(auto)]

mod batch_run;
mod batch_world;
mod batches;
mod lines;
mod lists;
mod main_run;
mod outer_world;
mod plain_run;
mod remote_parts;
mod remote_world;
mod run;
mod stage;
mod walk;

pub use plain_run::unsplit;
pub use run::PlainStop;
