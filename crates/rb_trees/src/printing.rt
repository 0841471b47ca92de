// Programs as text. Each function adds the text of a tree to the end of the text so far.

ghost use Rattle.std.specs.Prelude.{◌≡◌, [], ◌++◌, map, IfOk};
ghost use Rattle.rb_trees.specs.mirror.Types.{mirror_type};
ghost use Rattle.rb_trees.specs.mirror.Declarations.{mirror_interface, mirror_class, mirror_body, mirror_program};
ghost use Rattle.rb_trees.specs.printing.Pieces.{Adds};
ghost use Rattle.rb_trees.specs.printing.Stmts.{within_pieces};
ghost use Rattle.rb_trees.specs.printing.Programs.{main_head, interfaces_pieces, classes_pieces, printed_program};

mod declarations;
mod expressions;
mod operators;
mod statements;
mod types;
mod words;

use crate::code::TypeTree;
use crate::declarations::{Body, Class, Interface, Program};
use crate::sequence::{Seq, Word};
use crate::want::Memory;
use declarations::{print_class, print_interface};
pub use expressions::print_expr;
use statements::print_within;
pub use statements::{print_stmt, two_more};
use std::alloc::Global;
use types::print_result;

/// The text of a program: its interfaces, its classes and `main`, each member and statement on a
/// line of its own, behind two spaces for each block that is open there. One space stands around
/// binary operators and behind commas, and parentheses stand exactly where the grammar needs them.
/// An empty block of `else` and a result type Unit aren't printed. The rule stands in
/// `specs/printing`.
#[tactic(auto, using(crate::proofs::printed::Pieces::texts))]
pub fn print_program(alloc: Global, program: &Program) -> Result<Word, Memory>
    ensures { IfOk result (λ text. text ≡ printed_program (mirror_program program.now)) }
{
    let mut text = Seq::new(alloc);
    print_interfaces(program.interfaces.as_slice(), &mut text)?;
    print_classes(alloc, program.classes.as_slice(), &mut text)?;
    print_main(alloc, &program.result, &program.body, &mut text)?;
    Ok(text)
}

#[tactic(auto, using(crate::proofs::printed::Pieces::texts))]
fn print_interfaces(interfaces: &[Interface], into: &mut Word) -> Result<(), Memory>
    ensures { Adds (interfaces_pieces (map mirror_interface interfaces.now)) into.old result into.new }
{
    for interface in interfaces {
        print_interface(interface, into)?;
    }
    Ok(())
}

/// Adds the text of classes, as `print_program` prints them.
#[tactic(auto, using(crate::proofs::printed::Pieces::texts))]
pub fn print_classes(alloc: Global, classes: &[Class], into: &mut Word) -> Result<(), Memory>
    ensures { Adds (classes_pieces (map mirror_class classes.now)) into.old result into.new }
{
    for class in classes {
        print_class(alloc, class, into)?;
    }
    Ok(())
}

#[tactic(auto, using(crate::proofs::printed::Pieces::texts))]
fn print_main(alloc: Global, kind: &TypeTree, body: &Body, into: &mut Word) -> Result<(), Memory>
    ensures { Adds (main_head (mirror_type kind.now) ++ within_pieces [] (mirror_body body.now)) into.old result into.new }
{
    into.extend_from_slice(b"main")?;
    print_result(kind, into)?;
    into.extend_from_slice(b" {\n")?;
    print_within(alloc, b"", body, into)
}
