// What is said where something goes otherwise than is wanted.

/// Nothing where all goes as is wanted; or else what goes otherwise.
pub type Told = Result<(), &'static str>;

/// What is said where memory is wanting.
pub const NO_MEMORY: &str = "out of memory";

/// Says what goes otherwise, unless all goes as is wanted.
pub fn told(is_wanted: bool, otherwise: &'static str) -> Told {
    if is_wanted { Ok(()) } else { Err(otherwise) }
}
