// The names of the variables that a batch assigns.

ghost use Rattle.std.specs.Prelude.{◌≡◌, IfOk};
ghost use Rattle.rb_meaning_flow.specs.Scopes as scopes;

use rb_meaning_flow::{Role, Variable};
use rb_names::Names;
use std::marker::Model;

/// The names of the variables that a batch assigns. Contracts see their list.
#[derive(Drop)]
pub struct Assigned {
    pub names: Names,
}

impl Model for Assigned {
    ghost use Rattle.std.specs.Prelude.{ℕ, List};
    ghost use Rattle.std.specs.Coded.{coded_list, coded_ℕ};

    ghost Value = { List (List ℕ) };

    ghost coded = { coded_list (coded_list coded_ℕ) };

    ghost view = { λ a. a.names };
}

impl Assigned {
    /// What the batch sees a variable from outside as.
    pub fn role_of(&self, v: &Variable) -> Role
        ensures { result ≡ scopes.role_with self.now v.now.name v.now.role }
    {
        match v.role {
            Role::Constant => {
                if self.names.has(&v.name) {
                    Role::Plain
                } else {
                    Role::Constant
                }
            }
            Role::ConstantList => {
                if self.names.has(&v.name) {
                    Role::Plain
                } else {
                    Role::ConstantList
                }
            }
            Role::Root => Role::Root,
            Role::Row => Role::Row,
            Role::Carried => Role::Carried,
            Role::Plain => Role::Plain,
        }
    }
}
