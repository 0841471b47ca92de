// What the laws ask of code beside its types.

ghost use Rattle.rb_law_types.specs.Formed.{LawfulExprsAreFormed, LawfulStmtsAreFormed, LawfulClassesAreFormed};

/// Lawful code is formed, as the laws want it.
pub fn lawful_code_is_formed()
    ensures exprs { LawfulExprsAreFormed }
    ensures stmts { LawfulStmtsAreFormed }
    ensures classes { LawfulClassesAreFormed }
{}
