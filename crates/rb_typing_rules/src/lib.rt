//! The rules of typing by cases and the first violation by cases, and the laws that both agree with
//! the judgement that computes.
#![tactic(auto)]

ghost use Rattle.rb_typing_rules.specs.Agree.{ExprsAgree, StmtsAgree, ProgramsAgree, ServicesAgree, BrokenExprsAgree, BrokenStmtsAgree, FirstViolationsAgree, FirstViolationsOfServicesAgree, ProgramsHaveOneOutcome, ServicesHaveOneOutcome};

/// The rules by cases and the computed judgement are the same, for expressions, statements, programs
/// and services.
pub fn rules_agree()
    ensures exprs { ExprsAgree }
    ensures stmts { StmtsAgree }
    ensures programs { ProgramsAgree }
    ensures services { ServicesAgree }
{}

/// The violation that the judgement computes is the first by cases, for expressions, statements,
/// programs and services: what stands before it is typed by the rules, and there the rule is broken.
pub fn first_violations_agree()
    ensures exprs { BrokenExprsAgree }
    ensures stmts { BrokenStmtsAgree }
    ensures programs { FirstViolationsAgree }
    ensures services { FirstViolationsOfServicesAgree }
{}

/// By cases alone, a program or a service is typed or has a first violation, not both, and one
/// violation alone.
pub fn one_outcome()
    ensures programs { ProgramsHaveOneOutcome }
    ensures services { ServicesHaveOneOutcome }
{}
