// The kinds of what remote calls give.

ghost use Rattle.std.specs.Prelude.{◌≡◌, ◌-◌, slice_get};
ghost use Rattle.rb_trees.specs.CallKinds as kinds;

/// What a single value is that a remote call gives.
#[derive(Clone, Copy, PartialEq, Eq)]
pub enum Item {
    Int,
    Bool,
    Text,
    Object,
}

/// What a remote call gives: nothing, a single value, or rows of such.
///
/// Trees and payloads have it by its number, from 0 to 8; the numbers stand in `specs/CallKinds`.
#[derive(Clone, Copy, PartialEq, Eq)]
pub enum CallKind {
    Nothing,
    One(Item),
    Rows(Item),
}

impl Item {
    /// The number of a single value of this kind, from 1.
    pub fn number(self) -> u8
        ensures { result ≡ kinds.item_number self }
    {
        match self {
            Item::Int => 1,
            Item::Bool => 2,
            Item::Text => 3,
            Item::Object => 4,
        }
    }
}

impl CallKind {
    /// The number of the kind.
    pub fn number(self) -> u8
        ensures { result ≡ kinds.kind_number self }
    {
        match self {
            CallKind::Nothing => 0,
            CallKind::One(item) => item.number(),
            CallKind::Rows(item) => item.number() + 4,
        }
    }

    /// The number of the kind of a row, or 0 where there are no rows.
    pub fn row_number(self) -> u8
        ensures { result ≡ kinds.kind_number self - 4 }
    {
        match self {
            CallKind::Rows(item) => item.number(),
            CallKind::Nothing => 0,
            CallKind::One(Item::Int | Item::Bool | Item::Text | Item::Object) => 0,
        }
    }

    /// The kind of this number, where there is one.
    pub fn numbered(number: u8) -> Option<CallKind>
        ensures { result ≡ slice_get kinds.kinds number }
    {
        match number {
            0 => Some(CallKind::Nothing),
            1 => Some(CallKind::One(Item::Int)),
            2 => Some(CallKind::One(Item::Bool)),
            3 => Some(CallKind::One(Item::Text)),
            4 => Some(CallKind::One(Item::Object)),
            5 => Some(CallKind::Rows(Item::Int)),
            6 => Some(CallKind::Rows(Item::Bool)),
            7 => Some(CallKind::Rows(Item::Text)),
            8 => Some(CallKind::Rows(Item::Object)),
            _ => None,
        }
    }
}
