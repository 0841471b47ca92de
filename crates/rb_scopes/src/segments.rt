// Variables that several scopes share.

ghost use Rattle.std.specs.Prelude.{◌≡◌, [], ◌++◌, take, length, slice_get, IfOk, OnOk};
ghost use Rattle.std.specs.List.{flat_map};
ghost use Rattle.std.specs.Option.{option_copied};
ghost use Rattle.rb_meaning_flow.specs.Scopes as scopes;

use crate::variables::Variables;
use rb_meaning_flow::Variable;
use rb_trees::{Memory, Shared, Word};
use std::alloc::Global;
use std::marker::Model;

/// Variables in order of binding, in segments that other lists share. Contracts see their list.
///
/// A segment is more than the next one, so there are few: a name is looked up in each.
#[derive(Drop)]
pub struct Segments {
    items: Vec<Shared<Variables>>,
    count: usize,
}

impl Model for Segments {
    ghost use Rattle.std.specs.Prelude.{◌≡◌, List, length};
    ghost use Rattle.std.specs.List.{flat_map};
    ghost use Rattle.std.specs.Coded.{coded_list};
    ghost use Rattle.rb_meaning_flow.specs.declared.scopes.Variable.{Variable};
    ghost use Rattle.rb_meaning_flow.specs.contracts.scopes.Variable as variable_code;

    ghost Value = { List Variable };

    ghost coded = { coded_list variable_code.the_row.coded };

    ghost view = { λ s. flat_map (λ variables. variables) s.items.items };

    ghost invariant = { λ s. s.count ≡ length (flat_map (λ variables. variables) s.items.items) };
}

// The variable of a name among the first `count` of some segments.
#[tactic(auto, using(crate::proofs::Placed::take_named))]
fn find_among<'a>(
    segments: &'a [Shared<Variables>],
    count: usize,
    name: &Word,
) -> Option<&'a Variable>
    ensures { option_copied result ≡ scopes.variable_named (take count (flat_map (λ vs. vs) segments.now)) name.now }
{
    let (first, rest) = segments.split_first()?;
    let variables = first.get();
    match variables.find_within(count, name) {
        Some(found) => Some(found),
        None => find_among(rest, count.saturating_sub(variables.len()), name),
    }
}

// The variable at a place of some segments.
#[tactic(auto, using(crate::proofs::Placed::get_front, crate::proofs::Placed::get_back))]
fn item_of(segments: &[Shared<Variables>], place: usize) -> Option<&Variable>
    ensures { option_copied result ≡ slice_get (flat_map (λ vs. vs) segments.now) place }
{
    let (first, rest) = segments.split_first()?;
    let variables = first.get();
    let count = variables.len();
    if place < count {
        variables.get(place)
    } else {
        item_of(rest, place - count)
    }
}

// Whether the last segment has at most so many variables.
fn ends_within(segments: &[Shared<Variables>], count: usize) -> bool {
    match segments.last() {
        Some(last) => last.get().len() <= count,
        None => false,
    }
}

// Takes the last segment away and puts its variables before others.
fn join_last(
    alloc: Global,
    segments: &mut Vec<Shared<Variables>>,
    others: Variables,
) -> Result<Variables, Memory>
    ensures { IfOk result (λ joined. flat_map (λ vs. vs) segments.new.items ++ joined ≡ flat_map (λ vs. vs) segments.old.items ++ others) }
{
    let Some(last) = segments.pop() else {
        return Ok(others);
    };
    let mut joined = Variables::new(alloc);
    joined.bind_all(alloc, last.get())?;
    joined.bind_all(alloc, &others)?;
    Ok(joined)
}

// The same segments, with one owner more.
fn shared(alloc: Global, segments: &[Shared<Variables>]) -> Result<Vec<Shared<Variables>>, Memory>
    ensures { IfOk result (λ all. all.items ≡ segments.now) }
{
    let mut all = Vec::new(alloc);
    for segment in segments {
        all.push(segment.share()?)?;
    }
    Ok(all)
}

impl Segments {
    /// No variables.
    pub fn new(alloc: Global) -> Segments
        ensures { result ≡ [] }
    {
        Segments {
            items: Vec::new(alloc),
            count: 0,
        }
    }

    /// The same variables, which both share.
    pub fn share(&self, alloc: Global) -> Result<Segments, Memory>
        ensures { IfOk result (λ s. s ≡ self.now) }
    {
        Ok(Segments {
            items: shared(alloc, self.items.as_slice())?,
            count: self.count,
        })
    }

    /// How many there are.
    pub fn len(&self) -> usize
        ensures { result ≡ length self.now }
    {
        self.count
    }

    /// The variable of a name among the first `count`.
    pub fn find_within(&self, count: usize, name: &Word) -> Option<&Variable>
        ensures { option_copied result ≡ scopes.variable_named (take count self.now) name.now }
    {
        find_among(self.items.as_slice(), count, name)
    }

    /// The variable at a place.
    pub fn get(&self, place: usize) -> Option<&Variable>
        ensures { option_copied result ≡ slice_get self.now place }
    {
        item_of(self.items.as_slice(), place)
    }

    /// The same variables with others at the end. Segments that have no more than those after them are joined with these.
    pub fn with(self, alloc: Global, others: Variables) -> Result<Segments, Memory>
        ensures { IfOk result (λ s. s ≡ self ++ others) }
    {
        let Segments { items, count } = self;
        let count = count.checked_add(others.len()).ok_or(Memory)?;
        let mut items = items;
        let mut last = others;
        for _ in 0..items.len() {
            if ends_within(items.as_slice(), last.len()) {
                last = join_last(alloc, &mut items, last)?;
            }
        }
        items.push(Shared::new(alloc, last)?)?;
        Ok(Segments { items, count })
    }
}
