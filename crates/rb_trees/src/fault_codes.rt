//! The codes of faults, by which trees and payloads have them.

/// A quotient or remainder by 0.
pub const DIVISION_BY_ZERO: u8 = 1;
/// No item of the list has this index.
pub const INDEX_OUTSIDE: u8 = 2;
/// A joined text would be too long.
pub const TEXT_TOO_LONG: u8 = 3;
/// A list would have too many items.
pub const LIST_TOO_LONG: u8 = 4;
/// No room for a new object on this side.
pub const HEAP_FULL: u8 = 5;
/// A call of a method inside of too many others on this side.
pub const TOO_DEEP: u8 = 6;
/// All fuel is spent where a further unit is wanted.
pub const FUEL_USED: u8 = 7;
/// Code threw a text.
pub const THROWN: u8 = 8;
/// A remote call finds no object, or no method of its name there.
pub const NO_METHOD: u8 = 9;
/// A remote call brings arguments that don't fit the parameters.
pub const BAD_ARGUMENTS: u8 = 10;
/// What a remote call gives has another kind than its interface promises.
pub const WRONG_KIND: u8 = 11;
/// Something has a kind that is of no use there, or is missing.
pub const KIND: u8 = 12;
/// The lists that a batch would send have too many items together. It stands on no wire.
pub const INPUT_TOO_LARGE: u8 = 13;
