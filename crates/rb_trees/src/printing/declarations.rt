// The text of declarations.

ghost use Rattle.std.specs.Prelude.{[], ◌∷◌, map};
ghost use Rattle.rb_trees.specs.mirror.Declarations.{mirror_param, mirror_signature, mirror_interface, mirror_method, mirror_class};
ghost use Rattle.rb_trees.specs.printing.Pieces.{Space, Adds};
ghost use Rattle.rb_trees.specs.printing.Words.{name_piece};
ghost use Rattle.rb_trees.specs.printing.Stmts.{line, opened};
ghost use Rattle.rb_trees.specs.printing.Programs.{param_pieces, params_pieces, signature_pieces, signature_line, signatures_pieces, field_line, fields_pieces};
ghost use Rattle.rb_trees.specs.printing.Programs.{remote_pieces, method_head, method_pieces, methods_pieces, interface_pieces, class_pieces};

use super::statements::{print_line, print_within};
use super::types::{print_result, print_type};
use crate::declarations::{Class, Interface, Method, Param, Signature};
use crate::sequence::Word;
use crate::want::Memory;
use std::alloc::Global;

// Adds a parameter or a field: its name and type.
#[tactic(auto, using(crate::proofs::printed::Pieces::texts))]
fn print_param(param: &Param, into: &mut Word) -> Result<(), Memory>
    ensures { Adds (param_pieces (mirror_param param.now)) into.old result into.new }
{
    into.extend_from_slice(param.name.as_slice())?;
    into.extend_from_slice(b": ")?;
    print_type(&param.kind, into)
}

// Adds parameters with commas between them.
#[tactic(auto, using(crate::proofs::printed::Pieces::texts))]
fn print_params(params: &[Param], into: &mut Word) -> Result<(), Memory>
    ensures { Adds (params_pieces (map mirror_param params.now)) into.old result into.new }
{
    let mut is_first = true;
    for param in params {
        if !is_first {
            into.extend_from_slice(b", ")?;
        }
        print_param(param, into)?;
        is_first = false;
    }
    Ok(())
}

// Adds a signature.
#[tactic(auto, using(crate::proofs::printed::Pieces::texts))]
fn print_signature(signature: &Signature, into: &mut Word) -> Result<(), Memory>
    ensures { Adds (signature_pieces (mirror_signature signature.now)) into.old result into.new }
{
    into.extend_from_slice(b"fun ")?;
    into.extend_from_slice(signature.name.as_slice())?;
    into.extend_from_slice(b"(")?;
    print_params(signature.params.as_slice(), into)?;
    into.extend_from_slice(b")")?;
    print_result(&signature.result, into)
}

// Adds the line of a method of an interface.
#[tactic(auto, using(crate::proofs::printed::Pieces::texts))]
fn print_promise(indent: &[u8], signature: &Signature, into: &mut Word) -> Result<(), Memory>
    ensures { Adds (signature_line indent.now (mirror_signature signature.now)) into.old result into.new }
{
    into.extend_from_slice(indent)?;
    print_signature(signature, into)?;
    into.extend_from_slice(b";\n")
}

// Adds the lines of the methods of an interface.
#[tactic(auto, using(crate::proofs::printed::Pieces::texts))]
fn print_promises(indent: &[u8], signatures: &[Signature], into: &mut Word) -> Result<(), Memory>
    ensures { Adds (signatures_pieces indent.now (map mirror_signature signatures.now)) into.old result into.new }
{
    for signature in signatures {
        print_promise(indent, signature, into)?;
    }
    Ok(())
}

// Adds the line of a field.
#[tactic(auto, using(crate::proofs::printed::Pieces::texts))]
fn print_field(indent: &[u8], field: &Param, into: &mut Word) -> Result<(), Memory>
    ensures { Adds (field_line indent.now (mirror_param field.now)) into.old result into.new }
{
    into.extend_from_slice(indent)?;
    print_param(field, into)?;
    into.extend_from_slice(b";\n")
}

// Adds the lines of fields.
#[tactic(auto, using(crate::proofs::printed::Pieces::texts))]
fn print_fields(indent: &[u8], fields: &[Param], into: &mut Word) -> Result<(), Memory>
    ensures { Adds (fields_pieces indent.now (map mirror_param fields.now)) into.old result into.new }
{
    for field in fields {
        print_field(indent, field, into)?;
    }
    Ok(())
}

// Adds what stands before a method that is remote.
#[tactic(auto, using(crate::proofs::printed::Pieces::texts))]
fn print_remote(remote: bool, into: &mut Word) -> Result<(), Memory>
    ensures { Adds (remote_pieces remote) into.old result into.new }
{
    if remote {
        into.extend_from_slice(b"remote ")?;
    }
    Ok(())
}

// Adds the line that opens a method.
#[tactic(auto, using(crate::proofs::printed::Pieces::texts))]
fn print_opening(indent: &[u8], method: &Method, into: &mut Word) -> Result<(), Memory>
    ensures { Adds (method_head indent.now (mirror_method method.now)) into.old result into.new }
{
    into.extend_from_slice(indent)?;
    print_remote(method.remote, into)?;
    print_signature(&method.signature, into)?;
    into.extend_from_slice(b" {\n")
}

// Adds a method of a class.
#[tactic(auto, using(crate::proofs::printed::Pieces::texts))]
fn print_method(
    alloc: Global,
    indent: &[u8],
    method: &Method,
    into: &mut Word,
) -> Result<(), Memory>
    ensures { Adds (method_pieces indent.now (mirror_method method.now)) into.old result into.new }
{
    print_opening(indent, method, into)?;
    print_within(alloc, indent, &method.body, into)?;
    Ok(())
}

// Adds the methods of a class.
#[tactic(auto, using(crate::proofs::printed::Pieces::texts))]
fn print_methods(
    alloc: Global,
    indent: &[u8],
    methods: &[Method],
    into: &mut Word,
) -> Result<(), Memory>
    ensures { Adds (methods_pieces indent.now (map mirror_method methods.now)) into.old result into.new }
{
    for method in methods {
        print_method(alloc, indent, method, into)?;
    }
    Ok(())
}

// Adds the line that opens an interface or a class.
#[tactic(auto, using(crate::proofs::printed::Pieces::texts))]
fn print_named(front: &[u8], name: &Word, into: &mut Word) -> Result<(), Memory>
    ensures { Adds (line [] (opened (Space front.now ∷ name_piece name.now ∷ []))) into.old result into.new }
{
    into.extend_from_slice(front)?;
    into.extend_from_slice(name.as_slice())?;
    into.extend_from_slice(b" {\n")
}

/// Adds an interface.
#[tactic(auto, using(crate::proofs::printed::Pieces::texts))]
pub fn print_interface(interface: &Interface, into: &mut Word) -> Result<(), Memory>
    ensures { Adds (interface_pieces (mirror_interface interface.now)) into.old result into.new }
{
    print_named(b"interface ", &interface.name, into)?;
    print_promises(b"  ", interface.methods.as_slice(), into)?;
    print_line(b"", b"}", into)
}

/// Adds a class.
#[tactic(auto, using(crate::proofs::printed::Pieces::texts))]
pub fn print_class(alloc: Global, class: &Class, into: &mut Word) -> Result<(), Memory>
    ensures { Adds (class_pieces (mirror_class class.now)) into.old result into.new }
{
    print_named(b"class ", &class.name, into)?;
    print_fields(b"  ", class.fields.as_slice(), into)?;
    print_methods(alloc, b"  ", class.methods.as_slice(), into)?;
    print_line(b"", b"}", into)
}
