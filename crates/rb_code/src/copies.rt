// Copies of classes: what is answered is the same.

ghost use Rattle.std.specs.Prelude.{◌≡◌, IfOk};

use rb_trees::{
    Body, Class, Memory, Method, Param, Seq, Signature, copy_expr, copy_stmts, copy_type, copy_word,
};
use std::alloc::Global;

// A copy of a body: the same tree.
fn copy_body(alloc: Global, body: &Body) -> Result<Body, Memory>
    ensures { IfOk result (λ copy. copy ≡ body.now) }
{
    let statements = copy_stmts(alloc, body.statements.as_slice())?;
    let result = match &body.result {
        None => None,
        Some(expr) => Some(copy_expr(alloc, expr)?),
    };
    Ok(Body { statements, result })
}

// A copy of a parameter or field: the same tree.
fn copy_param(alloc: Global, param: &Param) -> Result<Param, Memory>
    ensures { IfOk result (λ copy. copy ≡ param.now) }
{
    Ok(Param {
        name: copy_word(alloc, &param.name)?,
        at: param.at,
        kind: copy_type(alloc, &param.kind)?,
    })
}

fn copy_params(alloc: Global, params: &[Param]) -> Result<Seq<Param>, Memory>
    ensures { IfOk result (λ copies. copies ≡ params.now) }
{
    let mut copies = Seq::new(alloc);
    for param in params {
        copies.push(copy_param(alloc, param)?)?;
    }
    Ok(copies)
}

// A copy of a signature: the same tree.
fn copy_signature(alloc: Global, signature: &Signature) -> Result<Signature, Memory>
    ensures { IfOk result (λ copy. copy ≡ signature.now) }
{
    Ok(Signature {
        name: copy_word(alloc, &signature.name)?,
        at: signature.at,
        params: copy_params(alloc, signature.params.as_slice())?,
        result: copy_type(alloc, &signature.result)?,
    })
}

// A copy of a method: the same tree.
fn copy_method(alloc: Global, method: &Method) -> Result<Method, Memory>
    ensures { IfOk result (λ copy. copy ≡ method.now) }
{
    Ok(Method {
        remote: method.remote,
        signature: copy_signature(alloc, &method.signature)?,
        body: copy_body(alloc, &method.body)?,
    })
}

fn copy_methods(alloc: Global, methods: &[Method]) -> Result<Seq<Method>, Memory>
    ensures { IfOk result (λ copies. copies ≡ methods.now) }
{
    let mut copies = Seq::new(alloc);
    for method in methods {
        copies.push(copy_method(alloc, method)?)?;
    }
    Ok(copies)
}

// A copy of a class: the same tree.
fn copy_class(alloc: Global, class: &Class) -> Result<Class, Memory>
    ensures { IfOk result (λ copy. copy ≡ class.now) }
{
    Ok(Class {
        name: copy_word(alloc, &class.name)?,
        at: class.at,
        fields: copy_params(alloc, class.fields.as_slice())?,
        methods: copy_methods(alloc, class.methods.as_slice())?,
    })
}

/// A copy of a list of classes: the same trees in order.
pub fn copy_classes(alloc: Global, classes: &[Class]) -> Result<Seq<Class>, Memory>
    ensures { IfOk result (λ copies. copies ≡ classes.now) }
{
    let mut copies = Seq::new(alloc);
    for class in classes {
        copies.push(copy_class(alloc, class)?)?;
    }
    Ok(copies)
}
