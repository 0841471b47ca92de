// Laws of operators, indexes and conditions.

ghost use Rattle.rb_law_types.specs.Operators.{OneKeeps, TwoKeep, LeftKeeps, IndexKeeps, ListsKeep, ConditionsHold, CaughtIsText};

/// On values of the operand types operators give a value of the result type, or a fault of their own: not Kind.
pub fn operators_keep_types()
    ensures one { OneKeeps }
    ensures two { TwoKeep }
    ensures left { LeftKeeps }
    ensures index { IndexKeeps }
    ensures lists { ListsKeep }
{}

/// A condition of type Bool has a truth.
pub fn conditions_have_truths()
    ensures { ConditionsHold }
{}

/// What a `catch` binds is a text within its limit.
pub fn texts_are_caught()
    ensures { CaughtIsText }
{}
