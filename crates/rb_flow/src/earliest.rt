// The earliest of the refusals that are found.

#![tactic(auto, using(crate::proofs::First::earliest_more))]

ghost use Rattle.std.specs.Prelude.{◌≡◌};
ghost use Rattle.rb_meaning_flow.specs.Refusals as words;
ghost use Rattle.rb_flow.specs.Earliest.{earlier, earliest, is_before, EarliestIsFirst};
ghost use Rattle.rb_flow.specs.Found.{where_so, under_found, operation_found};

use rb_trees::Refusal;

fn number(r: &Refusal) -> u8
    ensures { result ≡ words.number r.now }
{
    match r {
        Refusal::Flow(_) => 1,
        Refusal::NotConstant(_) => 2,
        Refusal::UnderLocalCondition(_, _) => 3,
        Refusal::Escapes(_) => 4,
        Refusal::BatchInside(_) => 5,
        Refusal::InTry(_) => 6,
        Refusal::RemoteVar(_) => 7,
        Refusal::TooManyInputs(_, _) => 8,
        Refusal::ScriptTooLarge(_, _) => 9,
    }
}

#[tactic(auto, using(crate::proofs::First::last_whole))]
fn last_of(chain: &[u32]) -> u32
    ensures { result ≡ words.last_of chain.now }
{
    let mut last = 0;
    for p in chain {
        last = *p;
    }
    last
}

/// Where a refusal stands.
pub fn place(r: &Refusal) -> u32
    ensures { result ≡ words.place r.now }
{
    match r {
        Refusal::Flow(chain) => last_of(chain.as_slice()),
        Refusal::UnderLocalCondition(_, operation) => *operation,
        Refusal::NotConstant(at) | Refusal::Escapes(at) => *at,
        Refusal::BatchInside(at) | Refusal::InTry(at) | Refusal::RemoteVar(at) => *at,
        Refusal::TooManyInputs(batch, _) => *batch,
        Refusal::ScriptTooLarge(batch, _) => *batch,
    }
}

fn comes_before(r: &Refusal, s: &Refusal) -> bool
    ensures { result ≡ is_before r.now s.now }
{
    let a = place(r);
    let b = place(s);
    a < b || a == b && number(r) < number(s)
}

/// The earlier of the refusal that is kept, if there is one, and another.
pub fn earlier_of(first: Option<Refusal>, r: Refusal) -> Option<Refusal>
    ensures { result ≡ earlier first r }
{
    match first {
        Some(s) => {
            if comes_before(&r, &s) {
                Some(r)
            } else {
                Some(s)
            }
        }
        None => Some(r),
    }
}

/// Keeps a refusal where it is the earliest so far.
pub fn keep(first: &mut Option<Refusal>, r: Refusal)
    ensures { first.new ≡ earlier first.old r }
{
    let before = first.take();
    *first = earlier_of(before, r);
}

/// The same, where something is so.
pub fn keep_if(first: &mut Option<Refusal>, so: bool, r: Refusal)
    ensures { first.new ≡ earliest (where_so so r) first.old }
{
    if so {
        keep(first, r);
    }
}

fn keep_under(first: &mut Option<Refusal>, condition: Option<u32>, at: u32)
    ensures { first.new ≡ earliest (under_found condition at) first.old }
{
    if let Some(condition) = condition {
        keep(first, Refusal::UnderLocalCondition(condition, at));
    }
}

/// Keeps the earliest refusal of what may be a remote operation.
pub fn keep_operation(
    first: &mut Option<Refusal>,
    operation: bool,
    condition: Option<u32>,
    tried: bool,
    at: u32,
)
    ensures { first.new ≡ earliest (operation_found operation condition tried at) first.old }
{
    if operation {
        keep_under(first, condition, at);
        keep_if(first, tried, Refusal::InTry(at));
    }
}

/// The law that what is kept while refusals are found is the first of them all.
#[tactic(auto, using(crate::proofs::First::earliest_is_first))]
pub fn law_of_earliest()
    ensures { EarliestIsFirst }
{}
