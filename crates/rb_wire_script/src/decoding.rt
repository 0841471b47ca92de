// Scripts with the values of their inputs, read from payloads.

ghost use Rattle.std.specs.Prelude.{◌≡◌, ◌≤◌, ◌^◌, IfOk, Ok, Result, length};
ghost use Rattle.rb_trees.specs.mirror.Scripts.{mirror_script};
ghost use Rattle.rb_trees.specs.Outcome.{Gives, Tells, refused_as};
ghost use Rattle.rb_trees.specs.Validity.{verdict};
ghost use Rattle.rb_meaning_bytes.specs.formats.Messages.{Sent, Refused};
ghost use Rattle.rb_meaning_bytes.specs.formats.ScriptPayloads.{Means, Suits, number_of, step_of, refused, version_of};
ghost use Rattle.rb_meaning_bytes.specs.formats.FormedScripts.{FormedScript, AreInputs};
ghost use Rattle.rb_wire_script.specs.Stops.{refusal_of, seen};

use crate::checking::{RuleStop, check_script};
use crate::message::whole;
use rb_trees::{Script, ScriptRefusal, Seq, Value, Version};
use rb_wire_fields::stop::Stop;
use std::alloc::Global;
use thiserror::Error;

/// Why a payload isn't taken.
#[derive(Debug, Drop, Error)]
pub enum ScriptStop {
    /// The first refusal: the version of the payload, its number, and its place. From 1 to 8 the bytes violate the
    /// format, and the place is an offset in the payload. From 11 on they spell a script that isn't valid, and the
    /// place is the number of a step.
    #[error("refusal {number} at {at}")]
    Refused {
        version: Version,
        number: u8,
        at: u32,
    },
    #[error("out of memory")]
    Memory,
}

/// The number of a script's refusal on the wire.
fn number_of(refusal: ScriptRefusal) -> u8
    ensures { result ≡ number_of refusal }
{
    match refusal {
        ScriptRefusal::UnknownVariable(_) => 11,
        ScriptRefusal::UnknownInput(_) => 12,
        ScriptRefusal::StepRepeated(_) => 13,
        ScriptRefusal::TooDeep(_) => 14,
        ScriptRefusal::WrongInput(_) => 15,
    }
}

/// The step that is refused.
fn step_of(refusal: ScriptRefusal) -> u32
    ensures { result ≡ step_of refusal }
{
    match refusal {
        ScriptRefusal::UnknownVariable(step)
        | ScriptRefusal::UnknownInput(step)
        | ScriptRefusal::StepRepeated(step)
        | ScriptRefusal::TooDeep(step)
        | ScriptRefusal::WrongInput(step) => step,
    }
}

/// Whether the script is valid, which was read in this version.
fn judge(alloc: Global, version: Version, script: &Script) -> Result<(), ScriptStop>
    ensures { Gives (λ x. x) refusal_of result (refused_as (refused version) (verdict (mirror_script script.now))) }
{
    match check_script(alloc, script) {
        Ok(()) => Ok(()),
        Err(RuleStop::Refused(refusal)) => Err(ScriptStop::Refused {
            version,
            number: number_of(refusal),
            at: step_of(refusal),
        }),
        Err(RuleStop::Memory) => Err(ScriptStop::Memory),
    }
}

/// The version of a payload: that which its first byte names, and version 1 for any other byte and for none.
fn version_of(payload: &[u8]) -> Version
    ensures { result ≡ version_of payload.now }
{
    match payload {
        [0x02, ..] => Version::Two,
        _ => Version::One,
    }
}

fn decoded(alloc: Global, payload: &[u8]) -> Result<(Version, Script, Seq<Value>), ScriptStop>
    requires { length payload.now ≤ 2 ^ 24 }
    ensures { Tells seen refusal_of result (Means payload.now) }
{
    match whole(alloc, payload) {
        Ok(sent) => match judge(alloc, sent.0, &sent.1) {
            Ok(()) => Ok(sent),
            Err(stop) => Err(stop),
        },
        Err(Stop::Refused(violation)) => Err(ScriptStop::Refused {
            version: version_of(payload),
            number: (violation.number % 256) as u8,
            at: (payload.len() - violation.left) as u32,
        }),
        Err(Stop::Memory) => Err(ScriptStop::Memory),
    }
}

/// The script that a payload of at most 16,777,216 bytes spells, with its version and the values of its inputs, if the
/// script is valid; else the first refusal. What the bytes violate comes first, in reading order: 1 Truncated,
/// 2 BadTag, 3 BadText, 4 NotCanonical, 5 TooDeep, 6 Trailing, 7 BadPool, 8 TooManyItems; then what the script's rules
/// refuse: 11 UnknownVariable, 12 UnknownInput, 13 StepRepeated, 15 WrongInput. The rule is `Means` in
/// `specs/formats/ScriptPayloads.antt` of rb_meaning_bytes.
pub fn decode_script(
    alloc: Global,
    payload: &[u8],
) -> Result<(Version, Script, Seq<Value>), ScriptStop>
    requires { length payload.now ≤ 2 ^ 24 }
    // What is answered is what the payload comes to.
    ensures told { Tells seen refusal_of result (Means payload.now) }
    // A script that is answered may be run, and sent on.
    ensures formed { IfOk result (λ x. FormedScript (mirror_script x.1)) }
    ensures suits { IfOk result (λ x. Suits x.0 (mirror_script x.1)) }
    ensures inputs { IfOk result (λ x. AreInputs (mirror_script x.1) x.2) }
    ensures valid { IfOk result (λ x. verdict (mirror_script x.1) ≡ Ok tt) }
    // What the payload comes to is answered, unless memory runs out.
    ensures alone { (meant : Result Sent Refused) → Means payload.now meant → Gives seen refusal_of result meant }
{
    decoded(alloc, payload)
}
