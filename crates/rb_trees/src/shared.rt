// Values with several owners, which are changed only where there is one.

ghost use Rattle.std.specs.Prelude.{◌≡◌, IfOk, IfSome};
ghost use Rattle.std.specs.Borrow.{LendsIf, sem};
ghost use Rattle.rb_trees.specs.contracts.shared.Shared.{the_row};

use crate::want::Memory;
use std::alloc::Global;
use std::marker::Model;
use std::rc::Rc;

/// A value that several owners share, so that one owner more costs no copy. Contracts see it as the value, so that a
/// tree of them is plain data.
#[derive(Drop)]
pub struct Shared<T> {
    inner: Rc<T>,
}

impl<T> Model for Shared<T> {
    ghost use Rattle.std.specs.Prelude.{◌≡◌};

    ghost Value = { T };

    ghost coded = { T.code };

    ghost view = { λ s. s.inner.value };
}

impl<T> Shared<T> {
    /// The value.
    pub fn get(&self) -> &T
        ensures { result.now ≡ self.now }
    {
        self.inner.as_ref()
    }

    /// The value, to be changed where it stands, or None where it has other owners.
    pub fn get_mut(&mut self) -> Option<&mut T>
        ensures* writes_back { sem 𝓛 (LendsIf (the_row T.row) T.row self.entry result (λ value. value) self.old) }
        ensures value { IfSome result (λ value. value.now ≡ self.old) }
    {
        Rc::get_mut(&mut self.inner)
    }
}

impl<T: Drop> Shared<T> {
    /// Puts a value where it can be shared.
    pub fn new(alloc: Global, value: T) -> Result<Shared<T>, Memory>
        ensures { IfOk result (λ s. s ≡ value) }
    {
        Ok(Shared {
            inner: Rc::new(alloc, value)?,
        })
    }

    /// The same value with one owner more. It takes no memory; an error comes only where the count of owners is at
    /// its end.
    pub fn share(&self) -> Result<Shared<T>, Memory>
        ensures { IfOk result (λ s. s ≡ self.now) }
    {
        Ok(Shared {
            inner: self.inner.clone()?,
        })
    }
}
