// What to do where an expression has another type than is wanted.

use crate::type_texts;
use crate::wanted::Wanted;
use rb_pieces::around::is_among;
use rb_trees::TypeForm;

/// What a value of the type that was found may be made into.
#[derive(Clone, Copy)]
enum Aim {
    Int,
    Bool,
    Text,
    List,
    Object,
    /// What `for` goes over.
    Turns,
    /// What `str` takes.
    Spelled,
    /// The type of a left operand.
    LikeLeft,
    /// A list of which an item is taken.
    Indexed,
    /// An object of which a member is taken.
    Member,
    /// What isn't known, or is of several types.
    Any,
}

/// What may be made where this type is written.
fn aim_at(written: &[u8]) -> Aim {
    match written {
        b"Int" => Aim::Int,
        b"Bool" => Aim::Bool,
        b"Text" => Aim::Text,
        _ if written.starts_with(b"List<") => Aim::List,
        _ => Aim::Object,
    }
}

/// What may be made where this is wanted.
fn aim_of(what: Wanted, written: &[u8]) -> Aim {
    match what {
        Wanted::Int => Aim::Int,
        Wanted::Bool => Aim::Bool,
        Wanted::Text | Wanted::Measured | Wanted::Joined => Aim::Text,
        Wanted::Turns => Aim::Turns,
        Wanted::Spelled => Aim::Spelled,
        Wanted::LikeLeft => Aim::LikeLeft,
        Wanted::Indexed => Aim::Indexed,
        Wanted::Receiver | Wanted::Owner => Aim::Member,
        Wanted::Parameter | Wanted::Field | Wanted::Item => aim_at(written),
        Wanted::Result | Wanted::MainResult | Wanted::LeftType => aim_at(written),
        Wanted::EachParameter | Wanted::EachField | Wanted::VariableType => aim_at(written),
        _ => Aim::Any,
    }
}

/// What to do with an Int.
fn from_int(aim: Aim) -> &'static [u8] {
    match aim {
        Aim::Bool => type_texts::COMPARE_INT,
        Aim::Text => type_texts::STR_MAKES_TEXT,
        Aim::List | Aim::Indexed => type_texts::MAKE_LIST,
        Aim::Object => type_texts::NAME_OBJECT,
        Aim::Turns => type_texts::COUNT_TURNS,
        Aim::LikeLeft => type_texts::STR_OF_THIS,
        Aim::Member => type_texts::NO_MEMBERS,
        Aim::Int | Aim::Spelled | Aim::Any => type_texts::FROM_INT,
    }
}

/// What to do with a Bool.
fn from_bool(aim: Aim) -> &'static [u8] {
    match aim {
        Aim::Int => type_texts::DECIDE,
        Aim::Text => type_texts::STR_MAKES_TEXT,
        Aim::List | Aim::Indexed | Aim::Turns => type_texts::MAKE_LIST,
        Aim::Object => type_texts::NAME_OBJECT,
        Aim::LikeLeft => type_texts::STR_OF_THIS,
        Aim::Member => type_texts::NO_MEMBERS,
        Aim::Bool | Aim::Spelled | Aim::Any => type_texts::FROM_BOOL,
    }
}

/// What to do with a Text.
fn from_text(aim: Aim) -> &'static [u8] {
    match aim {
        Aim::Int => type_texts::NO_NUMBER,
        Aim::Bool => type_texts::COMPARE_TEXT,
        Aim::List | Aim::Turns => type_texts::MAKE_LIST,
        Aim::Object => type_texts::NAME_OBJECT,
        Aim::Spelled => type_texts::STR_IS_NEEDLESS,
        Aim::LikeLeft => type_texts::STR_OF_LEFT,
        Aim::Text | Aim::Indexed | Aim::Member | Aim::Any => type_texts::FROM_TEXT,
    }
}

/// What to do with a value that is returned in `main` without a result.
fn returned_by_main(found: &TypeForm) -> &'static [u8] {
    match found {
        TypeForm::Int | TypeForm::Bool | TypeForm::Text => type_texts::MAIN_RESULT,
        TypeForm::Unit => type_texts::CALL_ALONE,
        _ => type_texts::MAIN_CANNOT,
    }
}

/// What to do with a value that is returned in a method without a result.
fn returned_by_method(found: &TypeForm) -> &'static [u8] {
    match found {
        TypeForm::Unit => type_texts::CALL_ALONE,
        _ => type_texts::METHOD_RESULT,
    }
}

/// What to do with a value of a type where another is wanted.
fn mend_of(what: Wanted, aim: Aim, found: &TypeForm) -> &'static [u8] {
    match found {
        TypeForm::Int => from_int(aim),
        TypeForm::Bool => from_bool(aim),
        TypeForm::Text => from_text(aim),
        TypeForm::Named(_) => match what {
            Wanted::Owner => type_texts::METHODS_ALONE,
            _ => type_texts::FROM_OBJECT,
        },
        TypeForm::ListOf(_) => match aim {
            Aim::List => type_texts::MAKE_LIST,
            _ => type_texts::FROM_LIST,
        },
        TypeForm::RowsOf(_) => type_texts::FROM_ROWS,
        TypeForm::Unit => type_texts::LET_IT_GIVE,
    }
}

/// Whether `str` takes values of a type.
fn is_spelled(written: &[u8]) -> bool {
    is_among(written, b"Int Bool")
}

/// Whether a type is Text.
fn is_text(found: &TypeForm) -> bool {
    matches!(found, TypeForm::Text)
}

/// What to do with a value of a type where another is wanted, and maybe written.
pub fn mend(what: Wanted, written: &[u8], found: &TypeForm) -> &'static [u8] {
    match what {
        Wanted::NoMainResult => returned_by_main(found),
        Wanted::NoResult => returned_by_method(found),
        Wanted::LeftType if is_spelled(written) && is_text(found) => type_texts::STR_OF_LEFT_TYPE,
        _ => mend_of(what, aim_of(what, written), found),
    }
}
