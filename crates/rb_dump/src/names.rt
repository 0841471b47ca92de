// The names of what stands as a number in messages.

/// From this number on a refusal is one of the script's rules, and its place is the number of a step.
pub(crate) const FIRST_OF_RULES: u8 = 11;

/// The name of an operator with one operand.
pub(crate) fn unary_name(code: u8) -> Option<&'static [u8]> {
    match code {
        1 => Some(b"not"),
        2 => Some(b"-"),
        3 => Some(b"len"),
        4 => Some(b"str"),
        _ => None,
    }
}

/// The name of an operator with two operands.
pub(crate) fn binary_name(code: u8) -> Option<&'static [u8]> {
    match code {
        1 => Some(b"+"),
        2 => Some(b"-"),
        3 => Some(b"*"),
        4 => Some(b"/"),
        5 => Some(b"%"),
        6 => Some(b"=="),
        7 => Some(b"!="),
        8 => Some(b"<"),
        9 => Some(b"<="),
        10 => Some(b">"),
        11 => Some(b">="),
        12 => Some(b"&&"),
        13 => Some(b"||"),
        _ => None,
    }
}

/// The name of the kind of what a call gives.
pub(crate) fn kind_name(code: u8) -> Option<&'static [u8]> {
    match code {
        0 => Some(b"Unit"),
        1 => Some(b"Int"),
        2 => Some(b"Bool"),
        3 => Some(b"Text"),
        4 => Some(b"object"),
        5 => Some(b"Rows of Int"),
        6 => Some(b"Rows of Bool"),
        7 => Some(b"Rows of Text"),
        8 => Some(b"Rows of objects"),
        _ => None,
    }
}

/// The name of a fault that may stand in a forest.
pub(crate) fn fault_name(code: u8) -> Option<&'static [u8]> {
    match code {
        1 => Some(b"DivZero"),
        2 => Some(b"Index"),
        3 => Some(b"TextTooLong"),
        4 => Some(b"ListTooLong"),
        5 => Some(b"HeapFull"),
        6 => Some(b"TooDeep"),
        7 => Some(b"FuelUsed"),
        8 => Some(b"Thrown"),
        9 => Some(b"NoMethod"),
        10 => Some(b"BadArguments"),
        11 => Some(b"WrongKind"),
        12 => Some(b"Kind"),
        _ => None,
    }
}

/// The name of a refusal.
pub(crate) fn refusal_name(number: u8) -> Option<&'static [u8]> {
    match number {
        1 => Some(b"Truncated"),
        2 => Some(b"BadTag"),
        3 => Some(b"BadText"),
        4 => Some(b"NotCanonical"),
        5 => Some(b"TooDeep"),
        6 => Some(b"Trailing"),
        7 => Some(b"BadPool"),
        8 => Some(b"TooManyItems"),
        11 => Some(b"UnknownVariable"),
        12 => Some(b"UnknownInput"),
        13 => Some(b"StepRepeated"),
        15 => Some(b"WrongInput"),
        _ => None,
    }
}
