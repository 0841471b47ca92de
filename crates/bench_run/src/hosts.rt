// Services of many files, and scripts on them.

use crate::script::script_of;
use crate::service::service_text;
use crate::totals::Totals;
use rb_code::classes_differ;
use rb_exec::{Host, run_into};
use rb_store::read_service;
use rb_trees::{Memory, Seq, StoreError, Value, Version};
use rb_wire_forest::{ForestStop, decode_forest};
use std::alloc::Global;
use thiserror::Error;

/// By how much a file grows.
const GROWTH: i64 = 3;

/// Why there are no totals.
#[derive(Debug, Drop, Error)]
pub enum Trouble {
    #[error("{0}")]
    Service(StoreError),
    #[error("two classes or methods have one name")]
    Same,
    #[error("{0}")]
    Forest(ForestStop),
    #[error("out of memory")]
    Memory,
}

impl From<Memory> for Trouble {
    fn from(_want: Memory) -> Trouble {
        Trouble::Memory
    }
}

/// The host of the service of so many files.
pub fn host_of(alloc: Global, files: u32) -> Result<Host, Trouble> {
    let text = service_text(alloc, files)?;
    let (service, table) = match read_service(alloc, text.as_bytes()) {
        Ok(read) => read,
        Err(error) => return Err(Trouble::Service(error)),
    };
    if !classes_differ(alloc, service.classes.as_slice())? {
        return Err(Trouble::Same);
    }
    Ok(Host::make(alloc, service, table)?)
}

/// What the script of so many rounds gives over so many files.
pub fn totals_of(alloc: Global, files: u32, rounds: u32) -> Result<Totals, Trouble> {
    let mut host = host_of(alloc, files)?;
    let script = script_of(alloc, rounds)?;
    let mut forest = Seq::new(alloc);
    run_into(
        alloc,
        &mut host,
        &script,
        &[Value::Int(GROWTH)],
        Version::One,
        &mut forest,
    )?;
    match decode_forest(alloc, forest.as_slice()) {
        Ok(node) => Ok(Totals::of(&node)),
        Err(stop) => Err(Trouble::Forest(stop)),
    }
}
