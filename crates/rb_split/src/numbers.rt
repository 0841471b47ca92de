// Numbers of steps and of variables.

ghost use Rattle.std.specs.Prelude.{◌≡◌, suc, IfOk};

use rb_trees::Memory;

/// The next number. No memory holds a batch with as many steps as a number can't tell.
pub fn next(number: u32) -> Result<u32, Memory>
    ensures { IfOk result (λ n. n ≡ suc number) }
{
    match number.checked_add(1) {
        Some(next) => Ok(next),
        None => Err(Memory),
    }
}
