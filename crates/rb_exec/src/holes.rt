// Counts that stand before what they count, and are put in behind it.

ghost use Rattle.std.specs.Prelude.{◌≡◌, ◌+◌, ◌%◌, ◌^◌, ◌≤◌, ◌++◌, length, IfOk, OnOk, OnErr};
ghost use Rattle.rb_meaning_bytes.specs.formats.Fields.{number};
ghost use Rattle.rb_wire_fields.specs.Buffers.{Keeps};
ghost use Rattle.rb_exec.specs.Holes.{filled};

use bytes::BytesMut;
use rb_trees::Memory;
use rb_wire_fields::puts::put_number;

/// Counts one more, by 32 bits.
#[inline(always)]
pub fn add_one(count: &mut u32)
    ensures { count.new ≡ (count.old + 1) % 2 ^ 32 }
{
    *count = count.wrapping_add(1);
}

/// Leaves room for a count at the end of a buffer, and gives its place.
#[inline]
pub fn leave_hole(bytes: &mut BytesMut) -> Result<usize, Memory>
    ensures at { IfOk result (λ at. at ≡ length bytes.old.items) }
    ensures ok { OnOk result (bytes.new.items ≡ bytes.old.items ++ number 0) }
    ensures err { OnErr result (Keeps bytes.old.items bytes.new.items) }
{
    let at = bytes.len();
    put_number(0, bytes)?;
    Ok(at)
}

/// Puts a count over the bytes from a place on.
#[tactic(auto, using(crate::proofs::Patched::patched), unfolding(rb_meaning_bytes::specs::formats::Fields::number))]
fn put_over(all: &mut [u8], at: usize, count: u32)
    requires { at + 4 ≤ length all.old }
    ensures { all.new ≡ filled at (number count) all.old }
{
    let _len = all.len();
    let [a, b, c, d] = count.to_be_bytes();
    all[at] = a;
    all[at + 1] = b;
    all[at + 2] = c;
    all[at + 3] = d;
}

/// Puts a count into the room that was left for it.
#[inline]
pub fn fill(bytes: &mut BytesMut, at: usize, count: u32)
    requires { at + 4 ≤ length bytes.old.items }
    ensures { bytes.new.items ≡ filled at (number count) bytes.old.items }
{
    put_over(bytes.as_mut_slice(), at, count);
}
