// Names that are kept inline, and the keys by which most of them differ.

ghost use Rattle.std.specs.Prelude.{◌≡◌, [], IfOk};
ghost use Rattle.std.specs.Str.{bytes_eq};
ghost use Rattle.rb_engine.specs.Keys.{key_of, key_with};

use rb_trees::Memory;
use smallvec::SmallVec;
use std::alloc::Global;
use std::marker::Model;

/// The number of a name's bytes that are kept in the name itself; a longer name takes memory.
const KEPT_INLINE: usize = 16;

/// A name with its key. A short one takes no memory. Contracts see its bytes.
#[derive(Drop)]
pub struct Name {
    key: u64,
    bytes: SmallVec<u8, KEPT_INLINE>,
}

impl Model for Name {
    ghost use Rattle.std.specs.Prelude.{◌≡◌, List, ℕ};
    ghost use Rattle.std.specs.Coded.{coded_list, coded_ℕ};
    ghost use Rattle.rb_engine.specs.Keys.{key_of};

    ghost Value = { List ℕ };

    ghost coded = { coded_list coded_ℕ };

    ghost view = { λ name. name.bytes.items };

    ghost invariant = { λ name. name.key ≡ key_of name.bytes.items };
}

/// A name that is sought, with its key. Contracts see its bytes.
#[derive(Drop)]
pub struct Sought<'a> {
    key: u64,
    bytes: &'a [u8],
}

impl<'a> Model for Sought<'a> {
    ghost use Rattle.std.specs.Prelude.{◌≡◌, List, ℕ};
    ghost use Rattle.std.specs.Coded.{coded_list, coded_ℕ};
    ghost use Rattle.rb_engine.specs.Keys.{key_of};

    ghost Value = { List ℕ };

    ghost coded = { coded_list coded_ℕ };

    ghost view = { λ sought. sought.bytes.now };

    ghost invariant = { λ sought. sought.key ≡ key_of sought.bytes.now };
}

// The key of the bytes so far, and one more.
#[inline(always)]
fn key_with(key: u64, byte: u8) -> u64
    ensures { result ≡ key_with key byte }
{
    (key << 8).wrapping_add(u64::from(byte))
}

// The key of a name: `key_of`.
#[inline(always)]
fn key_of(bytes: &[u8]) -> u64
    ensures { result ≡ key_of bytes.now }
{
    let mut key = 0;
    for byte in bytes {
        key = key_with(key, *byte);
    }
    key
}

impl<'a> Sought<'a> {
    /// A name that is sought.
    #[inline(always)]
    pub fn of(bytes: &'a [u8]) -> Sought<'a>
        ensures { result ≡ bytes.entry.now }
    {
        Sought {
            key: key_of(bytes),
            bytes,
        }
    }
}

impl Name {
    /// The name of these bytes.
    pub fn of(alloc: Global, bytes: &[u8]) -> Result<Name, Memory>
        ensures { IfOk result (λ name. name ≡ bytes.now) }
    {
        Ok(Name {
            key: key_of(bytes),
            bytes: SmallVec::from_slice(alloc, bytes)?,
        })
    }

    /// The name without bytes, which takes no memory.
    #[inline(always)]
    pub fn blank(alloc: Global) -> Name
        ensures { result ≡ [] }
    {
        Name {
            key: 0,
            bytes: SmallVec::new(alloc),
        }
    }

    /// A copy of the name: the same bytes.
    pub fn copy(&self, alloc: Global) -> Result<Name, Memory>
        ensures { IfOk result (λ copy. copy ≡ self.now) }
    {
        Ok(Name {
            key: self.key,
            bytes: SmallVec::from_slice(alloc, self.bytes.as_slice())?,
        })
    }

    /// Whether this is the name that is sought.
    #[inline(always)]
    pub fn is(&self, sought: &Sought<'_>) -> bool
        ensures { result ≡ bytes_eq self.now sought.now }
    {
        self.key == sought.key && self.bytes.as_slice() == sought.bytes
    }
}
