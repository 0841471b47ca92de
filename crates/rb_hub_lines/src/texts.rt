// A law of texts of events' lines.

ghost use Rattle.rb_hub_lines.specs.Lines.{HaveOneReading};

/// A text of events' lines has no line that breaks their form. It takes no memory and does nothing.
pub fn event_lines_have_one_reading()
    ensures { HaveOneReading }
{}
