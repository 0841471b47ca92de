// Scripts as bytes, at the end of a buffer. After an error the buffer has kept its bytes.

ghost use Rattle.std.specs.Prelude.{◌≡◌, ◌++◌, [], ◌∷◌, OnOk, OnErr};
ghost use Rattle.rb_meaning_bytes.specs.formats.ScriptBytes.{texts_bytes, pool_bytes};
ghost use Rattle.rb_meaning_bytes.specs.formats.Values.{version_byte};
ghost use Rattle.rb_wire_fields.specs.Buffers.{Keeps};
ghost use Rattle.rb_wire_script.specs.Spelled as spelled;

use crate::codes::{code_of_binary, code_of_unary};
use crate::texts::Texts;
use bytes::{BufMut, BytesMut};
use rb_trees::{
    Invocation, Memory, Operands, SExpr, Script, Shared, Step, StepForm, Value, Version, Word,
};
use rb_wire_fields::puts::{put_brief, put_length, put_natural, put_text, put_truth, put_value};

/// How a script is spelled: the version, and the texts of the pool, which has none in version 1.
#[derive(Drop)]
pub(crate) struct Spelling<'a> {
    pub version: Version,
    pub texts: Texts<'a>,
}

/// A text of the pool.
#[tactic(auto, using(rb_wire_fields::proofs::Kept::kept))]
fn put_pooled(by: &Spelling<'_>, text: &[u8], into: &mut BytesMut) -> Result<(), Memory>
    ensures ok { OnOk result (into.new.items ≡ into.old.items ++ spelled.pooled by.now text.now) }
    ensures err { OnErr result (Keeps into.old.items into.new.items) }
{
    match by.version {
        Version::One => put_text(text, into),
        Version::Two => put_length(Version::Two, by.texts.place(text), into),
    }
}

/// A primitive value; nothing for another.
#[tactic(auto, using(rb_wire_fields::proofs::Kept::values))]
fn put_literal(by: &Spelling<'_>, value: &Value, into: &mut BytesMut) -> Result<(), Memory>
    ensures ok { OnOk result (into.new.items ≡ into.old.items ++ spelled.literal by.now value.now) }
    ensures err { OnErr result (Keeps into.old.items into.new.items) }
{
    match value {
        Value::Text(text) => {
            into.put_u8(0x03)?;
            put_pooled(by, text.get().as_slice(), into)?;
            Ok(())
        }
        _ => put_value(by.version, value, into),
    }
}

/// Primitive values in order.
#[tactic(auto, using(rb_wire_fields::proofs::Kept::kept))]
fn put_literals(by: &Spelling<'_>, values: &[Value], into: &mut BytesMut) -> Result<(), Memory>
    ensures ok { OnOk result (into.new.items ≡ into.old.items ++ spelled.literals by.now values.now) }
    ensures err { OnErr result (Keeps into.old.items into.new.items) }
{
    for value in values {
        put_literal(by, value, into)?;
    }
    Ok(())
}

/// The value of an input.
#[tactic(auto, using(rb_wire_fields::proofs::Kept::values))]
fn put_input(by: &Spelling<'_>, value: &Value, into: &mut BytesMut) -> Result<(), Memory>
    ensures ok { OnOk result (into.new.items ≡ into.old.items ++ spelled.input by.now value.now) }
    ensures err { OnErr result (Keeps into.old.items into.new.items) }
{
    match value {
        Value::List(items) => {
            let items = items.get();
            into.put_u8(0x04)?;
            put_length(by.version, items.len(), into)?;
            put_literals(by, items.as_slice(), into)?;
            Ok(())
        }
        _ => put_literal(by, value, into),
    }
}

/// The values of inputs in order.
#[tactic(auto, using(rb_wire_fields::proofs::Kept::kept))]
fn put_inputs(by: &Spelling<'_>, values: &[Value], into: &mut BytesMut) -> Result<(), Memory>
    ensures ok { OnOk result (into.new.items ≡ into.old.items ++ spelled.inputs by.now values.now) }
    ensures err { OnErr result (Keeps into.old.items into.new.items) }
{
    for value in values {
        put_input(by, value, into)?;
    }
    Ok(())
}

/// What an operation begins with: its tag, the code of its operator and its position.
#[tactic(auto, using(rb_wire_fields::proofs::Kept::kept))]
fn put_operator(
    by: &Spelling<'_>,
    tag: u8,
    code: u8,
    at: u32,
    into: &mut BytesMut,
) -> Result<(), Memory>
    ensures ok { OnOk result (into.new.items ≡ into.old.items ++ tag ∷ code ∷ spelled.natural by.now at) }
    ensures err { OnErr result (Keeps into.old.items into.new.items) }
{
    into.put_u8(tag)?;
    into.put_u8(code)?;
    put_natural(by.version, at, into)?;
    Ok(())
}

/// What a call begins with: its tag, its position, the kind of its result and the method's name.
#[tactic(auto, using(rb_wire_fields::proofs::Kept::kept))]
fn put_method(
    by: &Spelling<'_>,
    at: u32,
    kind: u8,
    method: &[u8],
    into: &mut BytesMut,
) -> Result<(), Memory>
    ensures ok { OnOk result
        (into.new.items ≡ into.old.items ++ 0x26 ∷ spelled.natural by.now at ++ kind ∷ spelled.pooled by.now method.now) }
    ensures err { OnErr result (Keeps into.old.items into.new.items) }
{
    into.put_u8(0x26)?;
    put_natural(by.version, at, into)?;
    into.put_u8(kind)?;
    put_pooled(by, method, into)?;
    Ok(())
}

/// An expression.
#[cycle(put_exprs)]
#[tactic(auto, using(crate::proofs::Kept::exprs))]
fn put_expr(by: &Spelling<'_>, e: &SExpr, into: &mut BytesMut) -> Result<(), Memory>
    ensures ok { OnOk result (into.new.items ≡ into.old.items ++ spelled.expr by.now e.now) }
    ensures err { OnErr result (Keeps into.old.items into.new.items) }
{
    match e {
        SExpr::Lit(value) => {
            into.put_u8(0x20)?;
            put_literal(by, value.get(), into)?;
            Ok(())
        }
        SExpr::Input(number) => {
            into.put_u8(0x21)?;
            into.put_u8(*number)?;
            Ok(())
        }
        SExpr::Var(number) => {
            into.put_u8(0x22)?;
            put_natural(by.version, *number, into)?;
            Ok(())
        }
        SExpr::Root => {
            into.put_u8(0x23)?;
            Ok(())
        }
        SExpr::Unary(op, at, a) => {
            put_operator(by, 0x24, code_of_unary(*op), *at, into)?;
            put_expr(by, a.get(), into)?;
            Ok(())
        }
        SExpr::Binary(op, at, operands) => {
            let Operands { left, right } = operands.get();
            put_operator(by, 0x25, code_of_binary(*op), *at, into)?;
            put_expr(by, left, into)?;
            put_expr(by, right, into)?;
            Ok(())
        }
        SExpr::Call { kind, at, call } => {
            let Invocation {
                method,
                target,
                args,
            } = call.get();
            put_method(by, *at, *kind, method.get().as_slice(), into)?;
            put_expr(by, target, into)?;
            put_length(by.version, args.len(), into)?;
            put_exprs(by, args.as_slice(), into)?;
            Ok(())
        }
    }
}

/// Expressions in order.
#[cycle(put_exprs)]
#[tactic(auto, using(rb_wire_fields::proofs::Kept::kept))]
fn put_exprs(by: &Spelling<'_>, es: &[SExpr], into: &mut BytesMut) -> Result<(), Memory>
    ensures ok { OnOk result (into.new.items ≡ into.old.items ++ spelled.exprs by.now es.now) }
    ensures err { OnErr result (Keeps into.old.items into.new.items) }
{
    for e in es {
        put_expr(by, e, into)?;
    }
    Ok(())
}

/// What each step begins with.
#[tactic(auto, using(rb_wire_fields::proofs::Kept::kept))]
fn put_head(by: &Spelling<'_>, tag: u8, id: u32, at: u32, into: &mut BytesMut) -> Result<(), Memory>
    ensures ok { OnOk result (into.new.items ≡ into.old.items ++ spelled.head by.now tag id at) }
    ensures err { OnErr result (Keeps into.old.items into.new.items) }
{
    into.put_u8(tag)?;
    put_natural(by.version, id, into)?;
    put_natural(by.version, at, into)?;
    Ok(())
}

/// A block: the count of its steps, and the steps.
#[cycle(put_steps)]
#[tactic(auto, using(crate::proofs::Kept::steps))]
fn put_block(by: &Spelling<'_>, block: &[Step], into: &mut BytesMut) -> Result<(), Memory>
    ensures ok { OnOk result (into.new.items ≡ into.old.items ++ spelled.block by.now block.now) }
    ensures err { OnErr result (Keeps into.old.items into.new.items) }
{
    put_length(by.version, block.len(), into)?;
    for step in block {
        put_step(by, step, into)?;
    }
    Ok(())
}

/// A step.
#[cycle(put_steps)]
#[tactic(auto, using(crate::proofs::Kept::steps))]
fn put_step(by: &Spelling<'_>, step: &Step, into: &mut BytesMut) -> Result<(), Memory>
    ensures ok { OnOk result (into.new.items ≡ into.old.items ++ spelled.step by.now step.now) }
    ensures err { OnErr result (Keeps into.old.items into.new.items) }
{
    put_form(by, &step.form, step.id, step.at, into)
}

/// A step of this form, with its number and its position.
#[cycle(put_steps)]
#[tactic(auto, using(crate::proofs::Kept::steps))]
fn put_form(
    by: &Spelling<'_>,
    form: &StepForm,
    id: u32,
    at: u32,
    into: &mut BytesMut,
) -> Result<(), Memory>
    ensures ok { OnOk result (into.new.items ≡ into.old.items ++ spelled.form by.now form.now id at) }
    ensures err { OnErr result (Keeps into.old.items into.new.items) }
{
    match form {
        StepForm::Do(e) => {
            put_head(by, 0x10, id, at, into)?;
            put_expr(by, e, into)?;
            Ok(())
        }
        StepForm::Keep(e) => {
            put_head(by, 0x11, id, at, into)?;
            put_expr(by, e, into)?;
            Ok(())
        }
        StepForm::Let { var, keep, value } => {
            put_head(by, 0x12, id, at, into)?;
            put_natural(by.version, *var, into)?;
            put_truth(*keep, into)?;
            put_expr(by, value, into)?;
            Ok(())
        }
        StepForm::If(e, a, b) => {
            put_head(by, 0x13, id, at, into)?;
            put_expr(by, e, into)?;
            put_block(by, a.as_slice(), into)?;
            put_block(by, b.as_slice(), into)?;
            Ok(())
        }
        StepForm::Each {
            var,
            keep,
            rows,
            body,
        } => {
            put_head(by, 0x14, id, at, into)?;
            put_natural(by.version, *var, into)?;
            put_truth(*keep, into)?;
            put_expr(by, rows, into)?;
            put_block(by, body.as_slice(), into)?;
            Ok(())
        }
        StepForm::Over { var, input, body } => {
            put_head(by, 0x15, id, at, into)?;
            put_natural(by.version, *var, into)?;
            into.put_u8(*input)?;
            put_block(by, body.as_slice(), into)?;
            Ok(())
        }
    }
}

/// Texts of a pool in order.
#[tactic(auto, using(rb_wire_fields::proofs::Kept::kept))]
fn put_texts(texts: &[Shared<Word>], into: &mut BytesMut) -> Result<(), Memory>
    ensures ok { OnOk result (into.new.items ≡ into.old.items ++ texts_bytes texts.now) }
    ensures err { OnErr result (Keeps into.old.items into.new.items) }
{
    for text in texts {
        put_brief(text.get().as_slice(), into)?;
    }
    Ok(())
}

/// The pool.
#[tactic(auto, using(rb_wire_fields::proofs::Kept::kept))]
fn put_pool(by: &Spelling<'_>, into: &mut BytesMut) -> Result<(), Memory>
    ensures ok { OnOk result (into.new.items ≡ into.old.items ++ pool_bytes by.now.version by.now.texts) }
    ensures err { OnErr result (Keeps into.old.items into.new.items) }
{
    match by.version {
        Version::One => Ok(()),
        Version::Two => {
            put_length(Version::Two, by.texts.len(), into)?;
            put_texts(by.texts.texts(), into)?;
            Ok(())
        }
    }
}

/// The byte with which a message begins.
#[tactic(auto, using(rb_wire_fields::proofs::Kept::kept))]
fn put_version(version: Version, into: &mut BytesMut) -> Result<(), Memory>
    ensures ok { OnOk result (into.new.items ≡ into.old.items ++ version_byte version ∷ []) }
    ensures err { OnErr result (Keeps into.old.items into.new.items) }
{
    match version {
        Version::One => {
            into.put_u8(0x01)?;
            Ok(())
        }
        Version::Two => {
            into.put_u8(0x02)?;
            Ok(())
        }
    }
}

/// A script with the values of its inputs.
#[tactic(auto, using(rb_wire_fields::proofs::Kept::kept))]
pub(crate) fn put_message(
    by: &Spelling<'_>,
    script: &Script,
    values: &[Value],
    into: &mut BytesMut,
) -> Result<(), Memory>
    ensures ok { OnOk result (into.new.items ≡ into.old.items ++ spelled.message by.now script.now values.now) }
    ensures err { OnErr result (Keeps into.old.items into.new.items) }
{
    put_version(by.version, into)?;
    put_pool(by, into)?;
    into.put_u8(script.inputs)?;
    put_inputs(by, values, into)?;
    put_block(by, script.body.as_slice(), into)?;
    Ok(())
}
