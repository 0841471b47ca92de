// What is declared, and where code stands.
ghost use Rattle.std.specs.Prelude.{◌≡◌, map, IfOk};
ghost use Rattle.rb_trees.specs.mirror.Declarations.{mirror_class, mirror_program};
ghost use Rattle.rb_meaning_types.specs.Declared.{of_program, of_service};
ghost use Rattle.rb_types.specs.Views.{declarations_of};

use crate::classes::Classes;
use crate::interfaces::Interfaces;
use rb_trees::{Class, Memory, Program, Word};
use std::alloc::Global;

/// The interfaces and classes of a program or service, which are found by name, and whether they are a
/// service's.
#[derive(Drop)]
pub struct Declarations<'p> {
    pub interfaces: Interfaces<'p>,
    pub classes: Classes<'p>,
    pub service: bool,
}

impl<'p> Declarations<'p> {
    /// Those of a program.
    pub fn of_program(alloc: Global, program: &'p Program) -> Result<Declarations<'p>, Memory>
        ensures { IfOk result (λ d. declarations_of d ≡ of_program (mirror_program program.now)) }
    {
        let interfaces = Interfaces::new(alloc, program.interfaces.as_slice())?;
        let classes = Classes::new(alloc, program.classes.as_slice())?;
        Ok(Declarations {
            interfaces,
            classes,
            service: false,
        })
    }

    /// Those of a service, which has classes alone.
    pub fn of_service(alloc: Global, classes: &'p [Class]) -> Result<Declarations<'p>, Memory>
        ensures { IfOk result (λ d. declarations_of d ≡ of_service (map mirror_class classes.now)) }
    {
        let classes = Classes::new(alloc, classes)?;
        Ok(Declarations {
            interfaces: Interfaces::none(alloc),
            classes,
            service: true,
        })
    }
}

/// Where code stands: the declarations, the class of `this` in a method, and whether it may be remote.
#[derive(Clone, Copy)]
pub struct Context<'a, 'p> {
    pub declared: &'a Declarations<'p>,
    pub this: Option<&'a Word>,
    pub remote: bool,
}
