// The law of changes. It takes no memory and does nothing.

ghost use Rattle.rb_changes.specs.Laws.{ChangesKeepFitting};

/// A table that fits a service fits it after changes too, where their values are within their bounds.
pub fn changes_keep_tables_fitting()
    ensures { ChangesKeepFitting }
{}
