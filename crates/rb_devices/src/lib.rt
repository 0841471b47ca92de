//! The real devices: files, also as disks, standard output, connections, listeners and child processes of the system.
//!
//! Each keeps the contract of its trait, tells nothing, and counts its faults. What reaches a device or comes from it is the
//! system's.
#![tactic(auto)]

mod accepting;
mod connections;
mod counts;
mod file_stores;
mod moves;
mod real_dial;
mod real_disk;
mod real_files;
mod real_listen;
mod real_sink;
mod real_source;
mod standard_output;

pub use file_stores::FileStores;
pub use real_dial::{RealDial, RealLink};
pub use real_disk::RealDisk;
pub use real_files::RealFiles;
pub use real_listen::RealListen;
pub use real_sink::RealSink;
pub use real_source::RealSource;
pub use standard_output::StandardOutput;
