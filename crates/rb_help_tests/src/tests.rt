// All rows.

use crate::rows::{Part, all_told};
use crate::{
    faults, mistakes_in_batches, mistakes_in_declarations, mistakes_in_flows, mistakes_in_forms,
    mistakes_in_lists, mistakes_in_services, mistakes_in_types, mistakes_in_words, operands,
    outside, quotes, readings, typing, wanted,
};
use std::test::Fail;

#[test]
fn troubles_are_told(rt: HostRuntime) -> Result<(), Fail> {
    let alloc = rt.alloc();
    all_told(alloc, Part::Whole, faults::ROWS)?;
    all_told(alloc, Part::Whole, typing::ROWS)?;
    all_told(alloc, Part::Whole, readings::ROWS)?;
    all_told(alloc, Part::Whole, outside::ROWS)?;
    all_told(alloc, Part::Front, quotes::ROWS)
}

#[test]
fn mistakes_are_told_and_mended(rt: HostRuntime) -> Result<(), Fail> {
    let alloc = rt.alloc();
    all_told(alloc, Part::Sentences, operands::ROWS)?;
    all_told(alloc, Part::Sentences, wanted::ROWS)?;
    all_told(alloc, Part::Sentences, mistakes_in_batches::ROWS)?;
    all_told(alloc, Part::Sentences, mistakes_in_declarations::ROWS)?;
    all_told(alloc, Part::Sentences, mistakes_in_flows::ROWS)?;
    all_told(alloc, Part::Sentences, mistakes_in_forms::ROWS)?;
    all_told(alloc, Part::Sentences, mistakes_in_lists::ROWS)?;
    all_told(alloc, Part::Sentences, mistakes_in_services::ROWS)?;
    all_told(alloc, Part::Sentences, mistakes_in_types::ROWS)?;
    all_told(alloc, Part::Sentences, mistakes_in_words::ROWS)
}
