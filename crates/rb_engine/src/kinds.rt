// The kinds of what remote calls give, by their numbers.

ghost use Rattle.std.specs.Prelude.{◌≡◌};
ghost use Rattle.std.specs.Option.{option_map};
ghost use Rattle.rb_meaning_code.specs.Remote as rules;
ghost use Rattle.rb_engine.specs.Kinds.{mirror_kind};

use rb_trees::CallKind;

/// The kind of a number: `kind_of`.
#[tactic(auto, using(crate::proofs::Numbered::kinds_mirrored))]
pub fn kind_of(number: u8) -> Option<CallKind>
    ensures { option_map mirror_kind result ≡ rules.kind_of number }
{
    CallKind::numbered(number)
}
