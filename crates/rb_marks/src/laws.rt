// Laws of marks and places.

ghost use Rattle.rb_marks.specs.Laws.{EachHasItsMark, NoMarkElsewhere, EachHasItsPlace, NoPlaceElsewhere, RemoteInScript};

/// Each expression of a batch has the mark that its own site tells, and no mark stands elsewhere.

pub fn each_expression_has_its_mark()
    ensures there { EachHasItsMark }
    ensures elsewhere { NoMarkElsewhere }
{}

/// Each statement of a batch has the place that its own site tells, and no place stands elsewhere.

pub fn each_statement_has_its_place()
    ensures there { EachHasItsPlace }
    ensures elsewhere { NoPlaceElsewhere }
{}

/// In a program that admission doesn't refuse each Remote expression stands at a script place, or is the
/// condition of an `if` at one.
pub fn remote_expressions_stand_in_the_script()
    ensures { RemoteInScript }
{}
