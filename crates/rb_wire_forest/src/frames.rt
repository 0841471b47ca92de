// What is open, without its bytes.

ghost use Rattle.std.specs.Prelude.{◌≡◌, [], ◌∷◌, length, None};
ghost use Rattle.rb_wire_forest.specs.Opens.{frames_from};

/// The most nodes within each other.
pub const MOST_NODES: usize = 64;

/// An open node: how many of its entries are left, and where a Rows is open in it, how many nodes of that are left.
#[derive(Clone, Copy)]
pub struct Frame {
    pub entries: u32,
    pub turns: Option<u32>,
}

/// The root is open, with so many entries.
#[tactic(auto, using(crate::proofs::InArray::root), unfolding(crate::specs::Opens::frames_from))]
pub fn root_frames(entries: u32) -> [Frame; MOST_NODES]
    ensures full { length result ≡ 64 }
    ensures root { frames_from result 1 ≡ record { entries = entries; turns = None } ∷ [] }
{
    [Frame {
        entries,
        turns: None,
    }; MOST_NODES]
}
