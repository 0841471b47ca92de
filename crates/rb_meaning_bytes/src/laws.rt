// Laws of the wire's formats. They take no memory and do nothing.

ghost use Rattle.std.specs.Prelude.{◌≡◌, ◌≤◌, ℕ, List, [], length, true, Ok, Err, Result};
ghost use Rattle.rb_trees.specs.declared.versions.Version.{Version};
ghost use Rattle.rb_trees.specs.declared.versions.Version.TheVariants.{One};
ghost use Rattle.rb_trees.specs.mirror.Forests.{Node};
ghost use Rattle.rb_trees.specs.declared.values.Value.{Value};
ghost use Rattle.rb_trees.specs.mirror.Scripts.{Script, Steps};
ghost use Rattle.rb_trees.specs.CodeSize.{block_size};
ghost use Rattle.rb_trees.specs.Validity.{verdict};
ghost use Rattle.rb_meaning_bytes.specs.formats.Fields.{IsBytes};
ghost use Rattle.rb_meaning_bytes.specs.formats.Formats.{Spells, FirstViolation};
ghost use Rattle.rb_meaning_bytes.specs.formats.Laws.{IsPrefixFree, IsTotal, IsEither, HasOneViolation, IsSpelling};
ghost use Rattle.rb_meaning_bytes.specs.formats.ScriptMessages.{script_message};
ghost use Rattle.rb_meaning_bytes.specs.formats.Forests.{forest_of, forest_message};
ghost use Rattle.rb_meaning_bytes.specs.formats.Refusals.{refusal_message, is_refusal_number};
ghost use Rattle.rb_meaning_bytes.specs.formats.ScriptBytes.{block_bytes, steps_weight, script_bytes};
ghost use Rattle.rb_meaning_bytes.specs.formats.ForestBytes.{forest_bytes, refusal_bytes, FormedForest, FormedRefusal};
ghost use Rattle.rb_meaning_bytes.specs.formats.FormedScripts.{HaveNoOver, IsWithinLimits};
ghost use Rattle.rb_meaning_bytes.specs.formats.Messages.{Sent, Refused};
ghost use Rattle.rb_meaning_bytes.specs.formats.Payloads.{IsForestOf, IsForest};
ghost use Rattle.rb_meaning_bytes.specs.formats.ScriptPayloads.{version_of, Means, sent_bytes, CanBeSent};

/// No spelling of a message is a proper prefix of another, and no bytes spell two.
pub fn no_spelling_begins_another()
    ensures scripts { IsPrefixFree script_message }
    ensures forests { IsPrefixFree forest_message }
    ensures refusals { IsPrefixFree refusal_message }
{}

/// Each payload spells a message or has a first violation.
pub fn each_payload_is_spelled_or_violated()
    ensures scripts { IsTotal script_message }
    ensures forests { IsTotal forest_message }
    ensures refusals { IsTotal refusal_message }
{}

/// No payload that spells a message has a violation.
pub fn no_payload_is_both()
    ensures scripts { IsEither script_message }
    ensures forests { IsEither forest_message }
    ensures refusals { IsEither refusal_message }
{}

/// A payload has at most one first violation.
pub fn payloads_have_one_violation()
    ensures scripts { HasOneViolation script_message }
    ensures forests { HasOneViolation forest_message }
    ensures refusals { HasOneViolation refusal_message }
{}

/// A script that is formed and within the limits has one spelling, with the values of its inputs; no other has one.
pub fn each_script_has_one_spelling()
    ensures { IsSpelling script_message sent_bytes CanBeSent }
{}

/// A forest that is formed, with at most 64 nodes within each other, has one spelling in each version; no other has one.
pub fn each_forest_has_one_spelling()
    ensures { (version : Version) → IsSpelling (forest_of version) (forest_bytes version) FormedForest }
{}

/// What spells a forest in a version spells it, and each spelling of a forest is one in some version.
pub fn forests_have_a_version()
    ensures spelled { (version : Version) → (payload : List ℕ) → (node : Node) → IsForestOf version payload node
        → IsForest payload node }
    ensures versioned { (payload : List ℕ) → (node : Node) → IsForest payload node
        → (version : Version) × IsForestOf version payload node }
{}

/// A refusal has one spelling, where its version has its number and its place is within 32 bits; no other has one.
pub fn each_refusal_has_one_spelling()
    ensures { IsSpelling refusal_message refusal_bytes FormedRefusal }
{}

/// In version 1 the code of a script without an Over has as many bytes as its size says.
pub fn the_code_has_its_size()
    ensures { (code : Steps) → HaveNoOver code → length (block_bytes One [] code) ≡ block_size code }
{}

/// Each step of a script has a byte of its own in each spelling.
pub fn each_step_has_a_byte()
    ensures { (version : Version) → (script : Script) → (values : List Value)
        → steps_weight script.body ≤ length (script_bytes version script values) }
{}

/// A valid script is within the limits of nesting.
pub fn valid_scripts_are_within_limits()
    ensures { (script : Script) → verdict script ≡ Ok tt → IsWithinLimits script }
{}

/// A payload that should be a script comes to one thing: a valid script, a violation, or a script that isn't valid.
pub fn script_payloads_mean_one_thing()
    ensures one { (payload : List ℕ) → IsBytes payload → (meant : Result Sent Refused) × Means payload meant }
    ensures alone { (payload : List ℕ) → (meant : Result Sent Refused) → (other : Result Sent Refused) → IsBytes payload
        → Means payload meant → Means payload other → meant ≡ other }
{}

/// A payload that spells a script begins with the byte of its version.
pub fn payloads_name_their_version()
    ensures { (payload : List ℕ) → (x : Sent) → Spells script_message payload x → x.version ≡ version_of payload }
{}

/// The number of a violation is one that refusals have in the payload's version, and so is that of what a script's payload
/// is refused with.
pub fn refusals_have_numbers()
    ensures scripts { (payload : List ℕ) → (wrong : Refused) → Means payload (Err wrong)
        → is_refusal_number wrong.version wrong.number ≡ true }
    ensures forests { (payload : List ℕ) → (number : ℕ) → (at : ℕ) → FirstViolation forest_message payload number at
        → is_refusal_number (version_of payload) number ≡ true }
{}
