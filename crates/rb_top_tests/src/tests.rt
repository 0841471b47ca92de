// All rows.

use crate::places::{
    BATCH, CHECK, CHECK_BATCHES, DIRECTORY, NO_SERVICE, NOTHING, NUMBER, OTHER_DIRECTORY, PRINT,
    SPLIT, SPLIT_WIDE, THREE_PRINTS,
};
use crate::rows::{lines_are_answered, rows_are_answered};
use crate::{
    admissions, batch_faults, batches, carried_loops, checks, divisions, faults, flows,
    local_faults, local_runs, runs, types,
};
use std::test::Fail;

#[test]
fn programs_are_checked(rt: HostRuntime) -> Result<(), Fail> {
    let alloc = rt.alloc();
    lines_are_answered(alloc, &CHECK, types::LINES)?;
    lines_are_answered(alloc, &CHECK, checks::LINES)?;
    rows_are_answered(alloc, &CHECK, checks::ROWS)?;
    lines_are_answered(alloc, &CHECK_BATCHES, admissions::LINES)?;
    rows_are_answered(alloc, &CHECK_BATCHES, flows::ROWS)
}

#[test]
fn a_script_has_at_most_four_megabytes(rt: HostRuntime) -> Result<(), Fail> {
    rows_are_answered(rt.alloc(), &CHECK, checks::LONG)
}

#[test]
fn batches_are_divided(rt: HostRuntime) -> Result<(), Fail> {
    let alloc = rt.alloc();
    rows_are_answered(alloc, &SPLIT, divisions::ROWS)?;
    rows_are_answered(alloc, &SPLIT_WIDE, divisions::WIDE)
}

#[test]
fn programs_are_run_on_a_directory(rt: HostRuntime) -> Result<(), Fail> {
    let alloc = rt.alloc();
    rows_are_answered(alloc, &DIRECTORY, batches::ROWS)?;
    rows_are_answered(alloc, &DIRECTORY, carried_loops::ROWS)?;
    rows_are_answered(alloc, &OTHER_DIRECTORY, batches::DIFFERING)
}

#[test]
fn batches_fault_on_a_directory(rt: HostRuntime) -> Result<(), Fail> {
    rows_are_answered(rt.alloc(), &DIRECTORY, batch_faults::ROWS)
}

#[test]
fn programs_are_run_on_a_service(rt: HostRuntime) -> Result<(), Fail> {
    let alloc = rt.alloc();
    rows_are_answered(alloc, &NUMBER, local_runs::ROWS)?;
    rows_are_answered(alloc, &NUMBER, local_faults::ROWS)?;
    rows_are_answered(alloc, &NUMBER, runs::FORMS)?;
    rows_are_answered(alloc, &NO_SERVICE, faults::ROWS)
}

#[test]
fn services_are_read_and_served(rt: HostRuntime) -> Result<(), Fail> {
    let alloc = rt.alloc();
    rows_are_answered(alloc, &PRINT, runs::SERVICES)?;
    rows_are_answered(alloc, &PRINT, runs::REFUSED)?;
    rows_are_answered(alloc, &NOTHING, runs::REFUSED)?;
    rows_are_answered(alloc, &BATCH, runs::PRINTS)?;
    rows_are_answered(alloc, &THREE_PRINTS, runs::FAULTING)
}
