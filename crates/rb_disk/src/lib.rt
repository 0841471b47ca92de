//! Disks as a trait: what a read gives, and what a crash leaves.
//!
//! A disk in memory tells the record of its calls, from which the words of `specs/Images` say both. A real disk tells nothing.
//! Disks are had by their names from `Stores`.
#![tactic(auto)]

mod disk;
mod disk_calls;
mod laws;
mod memory_disk;
mod memory_stores;
mod null_disk;
mod null_stores;
mod stores;

pub use disk::Disk;
pub use laws::{disks_come_back_to_their_names, reading_is_an_image};
pub use memory_disk::MemoryDisk;
pub use memory_stores::MemoryStores;
pub use null_disk::NullDisk;
pub use null_stores::NullStores;
pub use stores::Stores;
