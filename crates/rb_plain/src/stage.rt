// What a run stands on.

ghost use Rattle.std.specs.Prelude.{◌≡◌};
ghost use Rattle.rb_meaning_flow.specs.Programs as programs;
ghost use Rattle.rb_meaning.specs.Unsplit as meant;
ghost use Rattle.rb_plain.specs.Staged.{program_of};

use rb_code::Code;
use rb_flow::Admitted;
use rb_marks::Facts;
use rb_trees::Mark;
use rb_types::Typed;
use std::marker::Model;

/// The admitted program with the code of its classes, and the service: the code of its classes, and the number of its
/// root. Contracts see the program and the service.
#[derive(Drop)]
pub struct Stage<'a> {
    facts: Facts<'a>,
    admitted: &'a Admitted<'a>,
    code: &'a Code,
    service: &'a Code,
    root: u32,
}

impl<'a> Model for Stage<'a> {
    ghost use Rattle.std.specs.Prelude.{◌≡◌};
    ghost use Rattle.rb_plain.specs.Staged.{Staged, staged_code};

    ghost Value = { Staged };

    ghost coded = { staged_code };

    ghost view = { λ s. record { program = s.facts; service = record { classes = s.service.now; root = s.root } } };

    ghost invariant = { λ s. (s.code.now ≡ s.facts.classes) × (s.admitted.now.0 ≡ s.facts) };
}

impl<'a> Stage<'a> {
    /// The stage of an admitted program and a service. The facts are the program's, and the code is that of its classes.
    pub fn new(
        facts: Facts<'a>,
        admitted: &'a Admitted<'a>,
        code: &'a Code,
        service: &'a Code,
        root: u32,
    ) -> Stage<'a>
        requires facts { admitted.now.0 ≡ facts }
        requires code { code.now ≡ facts.classes }
        ensures { result ≡ record { program = facts.entry; service = record { classes = service.now; root = root } } }
    {
        Stage {
            facts,
            admitted,
            code,
            service,
            root,
        }
    }

    /// The program.
    pub fn typed(&self) -> &'a Typed
        ensures { result.now ≡ self.now.program }
    {
        self.facts.typed()
    }

    /// What the program's types tell.
    pub fn facts(&self) -> &Facts<'a>
        ensures { result.now ≡ self.now.program }
    {
        &self.facts
    }

    /// The code of the program's classes.
    pub fn code(&self) -> &'a Code
        ensures { result.now ≡ self.now.program.classes }
    {
        self.code
    }

    /// The code of the service's classes.
    pub fn service(&self) -> &'a Code
        ensures { result.now ≡ self.now.service.classes }
    {
        self.service
    }

    /// The number of the service's root.
    pub fn root(&self) -> u32
        ensures { result ≡ self.now.service.root }
    {
        self.root
    }

    /// Whether a part of a remote expression stands at a position: `stands_remote`.
    pub fn stands_remote(&self, at: u32) -> bool
        ensures { result ≡ meant.stands_remote (program_of self.now) at }
    {
        match self.admitted.marks().mark_at(at) {
            Some(Mark::Remote) => true,
            Some(Mark::Constant) | Some(Mark::Local) => false,
            None => false,
        }
    }

    /// Whether a carried loop stands at a position: `is_carried_at`.
    pub fn is_carried_at(&self, at: u32) -> bool
        ensures { result ≡ programs.is_carried_at (program_of self.now) at }
    {
        self.admitted.is_carried_at(at)
    }
}
