// What a client runs.

ghost use Rattle.std.specs.Prelude.{◌≡◌};
ghost use Rattle.std.specs.Option.{option_copied};
ghost use Rattle.rb_client.specs.Exchanges.{AreDivisions};
ghost use Rattle.rb_client.specs.Splits.{split_at};

use crate::divisions::Divisions;
use rb_code::Code;
use rb_trees::Split;
use rb_types::Typed;
use std::marker::Model;

/// A program with the divisions of its batches, each of whose scripts can be sent, and the code of its classes. Contracts see
/// the program and the divisions.
#[derive(Drop)]
pub struct Plan<'a> {
    typed: &'a Typed,
    splits: Divisions<'a>,
    code: &'a Code,
}

impl<'a> Model for Plan<'a> {
    ghost use Rattle.std.specs.Prelude.{◌≡◌};
    ghost use Rattle.rb_client.specs.Exchanges.{AreDivisions};
    ghost use Rattle.rb_client.specs.Plans.{Planned, planned_code};

    ghost Value = { Planned };

    ghost coded = { planned_code };

    ghost view = { λ p. record { program = p.typed.now; splits = p.splits } };

    ghost invariant = { λ p. (p.code.now ≡ p.typed.now.classes) × AreDivisions p.typed.now p.splits };
}

impl<'a> Plan<'a> {
    /// The plan of a program with its divisions. The code is that of the program's classes.
    pub fn new(typed: &'a Typed, splits: Divisions<'a>, code: &'a Code) -> Plan<'a>
        requires code { code.now ≡ typed.now.classes }
        requires divided { AreDivisions typed.now splits }
        ensures { result ≡ record { program = typed.now; splits = splits.entry } }
    {
        Plan {
            typed,
            splits,
            code,
        }
    }

    /// The program.
    pub fn typed(&self) -> &'a Typed
        ensures { result.now ≡ self.now.program }
    {
        self.typed
    }

    /// The division of the batch at a position: `split_at`.
    pub fn find(&self, at: u32) -> Option<&'a Split>
        ensures found { option_copied result ≡ split_at self.now.splits at }
        ensures divided { AreDivisions self.now.program self.now.splits }
    {
        self.splits.find(at)
    }

    /// The code of the program's classes.
    pub fn code(&self) -> &'a Code
        ensures { result.now ≡ self.now.program.classes }
    {
        self.code
    }
}
