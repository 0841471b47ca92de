//! The trees of the product: programs, services, scripts, remainders, forests and tokens; and what is told of
//! them.
//!
//! Contracts see a [`Seq`] as its list and a [`Boxed`] as its value, so that a tree is plain data
//! and `result ≡ tree` says that two trees are the same. Definitions of the product are written
//! over the mirror of these trees, which stands in `specs/mirror`.
#![tactic(auto)]

mod boxes;
mod code;
mod copies;
mod declarations;
pub mod fault_codes;
mod flows;
mod forests;
mod kinds;
pub mod limits;
mod marks;
mod outcomes;
mod printing;
mod reading;
mod refusals;
mod remainders;
mod scripts;
mod sequence;
mod services;
mod shared;
mod sizes;
mod stores;
mod tokens;
mod typing;
mod validity;
mod values;
mod versions;
mod want;

pub use boxes::Boxed;
pub use code::{BinOp, Expr, ExprForm, Stmt, StmtForm, TypeForm, TypeTree, UnOp};
pub use copies::{
    copy_expr, copy_exprs, copy_stmt, copy_stmts, copy_type, copy_type_form, copy_value,
    copy_values, copy_word,
};
pub use declarations::{Body, Class, Interface, Method, Param, Program, Signature};
pub use flows::{BadPart, Writer};
pub use forests::{Entry, Node, NodeFault};
pub use kinds::{CallKind, Item};
pub use marks::{Mark, Place};
pub use outcomes::{Ending, Raised, Run};
pub use printing::{print_classes, print_expr, print_program, print_stmt, two_more};
pub use reading::{LexError, ReadError};
pub use refusals::Refusal;
pub use remainders::{Part, Split};
pub use scripts::{Invocation, Operands, SExpr, Script, Step, StepForm};
pub use sequence::{Seq, Word};
pub use services::{Change, Literal, Object, ObjectText, Service, ServiceText};
pub use shared::Shared;
pub use sizes::code_size;
pub use stores::StoreError;
pub use tokens::{Token, TokenKind};
pub use typing::TypeError;
pub use validity::{ScriptRefusal, valid};
pub use values::{Fault, Value};
pub use versions::Version;
pub use want::Memory;
