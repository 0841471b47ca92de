// The shapes of payloads.

/// The shapes of payloads. Each is a script as long as its bytes let it be.
#[derive(Clone, Copy)]
pub enum Shape {
    /// Many small steps, numbered in order.
    Steps,
    /// Many small steps, whose numbers are scattered.
    Scattered,
    /// Many steps that bind a variable, each to the one before.
    Variables,
    /// Blocks within each other, as many as may be open, and many steps in the innermost one.
    Blocks,
    /// Many steps that branch, with a small step in each block.
    Branches,
    /// A call with many arguments, each of as many expressions within each other as may be.
    Deep,
    /// A call with many numbers as arguments.
    Wide,
    /// A call with many arguments that are a byte each.
    Narrow,
    /// A call with many truths as arguments.
    Truths,
    /// A call with many texts of a byte each as arguments.
    Letters,
    /// Many steps with texts as long as texts may be.
    Texts,
    /// Many small steps, of which the last one has the number of the first.
    Repeated,
    /// Many small steps, and a last one with a variable that nothing binds.
    Unbound,
    /// Many small steps, of which more are announced than there are.
    Cut,
}

/// All shapes.
pub static SHAPES: [Shape; 14] = [
    Shape::Steps,
    Shape::Scattered,
    Shape::Variables,
    Shape::Blocks,
    Shape::Branches,
    Shape::Deep,
    Shape::Wide,
    Shape::Narrow,
    Shape::Truths,
    Shape::Letters,
    Shape::Texts,
    Shape::Repeated,
    Shape::Unbound,
    Shape::Cut,
];

impl Shape {
    /// The shape's name.
    pub fn name(self) -> &'static str {
        match self {
            Shape::Steps => "steps",
            Shape::Scattered => "scattered",
            Shape::Variables => "variables",
            Shape::Blocks => "blocks",
            Shape::Branches => "branches",
            Shape::Deep => "deep",
            Shape::Wide => "wide",
            Shape::Narrow => "narrow",
            Shape::Truths => "truths",
            Shape::Letters => "letters",
            Shape::Texts => "texts",
            Shape::Repeated => "repeated",
            Shape::Unbound => "unbound",
            Shape::Cut => "cut",
        }
    }
}

/// The shape of a name.
pub fn shape_named(name: &str) -> Option<Shape> {
    for shape in &SHAPES {
        if shape.name() == name {
            return Some(*shape);
        }
    }
    None
}
