// All scripts.

use crate::exec::files::{expect_each, expect_in_turn};
use crate::exec::over::expect_cases;
use crate::exec::{calls, fuel, kinds, operators, steps};
use std::test::Fail;

#[test]
fn scripts_give_what_stands_behind_them(rt: HostRuntime) -> Result<(), Fail> {
    let alloc = rt.alloc();
    expect_each(alloc, operators::LINES)?;
    expect_each(alloc, steps::LINES)?;
    expect_each(alloc, calls::LINES)?;
    expect_in_turn(alloc, kinds::LINES)?;
    expect_cases(alloc)
}

#[test]
fn scripts_run_out_of_fuel(rt: HostRuntime) -> Result<(), Fail> {
    let alloc = rt.alloc();
    expect_in_turn(alloc, fuel::TURNS)?;
    expect_in_turn(alloc, fuel::SPENT)?;
    expect_in_turn(alloc, fuel::CALLS)
}
