// What is open in a forest that is walked, by the forest's tree.

use rb_trees::{Entry, Node, NodeFault, Value};

/// A call of a cursor.
#[derive(Clone, Copy)]
pub enum Call {
    Value,
    Branch,
    Rows,
    Turn,
    Fault,
    Leave,
    Close,
}

/// What a call answers.
#[derive(Clone, Copy, PartialEq)]
pub enum Answer<'a> {
    /// None or false.
    Nothing,
    /// True, a value, or which branch was taken.
    Truth(bool),
    Int(i64),
    Text(&'a [u8]),
    /// The number of nodes of a Rows.
    Nodes(usize),
    /// The step, the position, the code and the text of a fault.
    Fault(u32, u32, u8, &'a [u8]),
}

/// A node with the entries that are left and its fault, or a Rows with the nodes that are left.
#[derive(Clone, Copy)]
enum Open<'a> {
    Node(&'a [Entry], &'a Option<NodeFault>),
    Rows(&'a [Node]),
}

/// More nodes and Rows within each other than any forest of the tests has.
const MOST_OPEN: usize = 16;

/// What is open of a forest: the root is the first, and the innermost stands at `depth`.
#[derive(Clone, Copy)]
pub struct Opened<'a> {
    open: [Open<'a>; MOST_OPEN],
    depth: usize,
}

/// The node with all its entries.
fn whole<'a>(node: &'a Node) -> Open<'a> {
    Open::Node(node.entries.as_slice(), &node.fault)
}

/// The answer with a value.
fn value<'a>(value: &'a Value) -> Answer<'a> {
    match value {
        Value::Int(number) => Answer::Int(*number),
        Value::Bool(truth) => Answer::Truth(*truth),
        Value::Text(text) => Answer::Text(text.get().as_slice()),
        _ => Answer::Nothing,
    }
}

/// What a call answers that takes this entry, and what it opens. None where the entry has another form.
fn entry<'a>(entry: &'a Entry, call: Call) -> Option<(Answer<'a>, Option<Open<'a>>)> {
    match (entry, call) {
        (Entry::Value(given), Call::Value) => Some((value(given), None)),
        (Entry::Branch(taken, node), Call::Branch) => {
            Some((Answer::Truth(*taken), Some(whole(node))))
        }
        (Entry::Rows(nodes), Call::Rows) => {
            Some((
                Answer::Nodes(nodes.len()),
                Some(Open::Rows(nodes.as_slice())),
            ))
        }
        _ => None,
    }
}

/// What a call answers that takes the first of what is left, what is left then, and what it opens.
fn first<'a>(open: Open<'a>, call: Call) -> Option<(Answer<'a>, Open<'a>, Option<Open<'a>>)> {
    match (open, call) {
        (Open::Node([next, rest @ ..], fault), _) => match entry(next, call) {
            Some((answer, opened)) => Some((answer, Open::Node(rest, fault), opened)),
            None => None,
        },
        (Open::Rows([node, rest @ ..]), Call::Turn) => {
            Some((Answer::Truth(true), Open::Rows(rest), Some(whole(node))))
        }
        _ => None,
    }
}

impl<'a> Opened<'a> {
    /// The root is open.
    pub fn new(root: &'a Node) -> Opened<'a> {
        Opened {
            open: [whole(root); MOST_OPEN],
            depth: 0,
        }
    }

    /// What a call answers here. What it takes or opens is taken or opened.
    pub fn ask(&mut self, call: Call) -> Answer<'a> {
        let Some(open) = self.open.get(self.depth) else {
            return Answer::Nothing;
        };
        let open = *open;
        match (call, open) {
            (Call::Fault, Open::Node([], Some(fault))) => {
                let text = fault.fault.text.as_slice();
                Answer::Fault(fault.step, fault.at, fault.fault.code, text)
            }
            (Call::Close, _) | (Call::Leave, Open::Node([], _) | Open::Rows([])) => self.close(),
            _ => self.take(open, call),
        }
    }

    /// The innermost is now so.
    fn put(&mut self, open: Open<'a>) {
        let depth = self.depth;
        if let Some(place) = self.open.get_mut(depth) {
            *place = open;
        }
    }

    /// Takes the first of what is left of the innermost.
    fn take(&mut self, open: Open<'a>, call: Call) -> Answer<'a> {
        let Some((answer, rest, opened)) = first(open, call) else {
            return Answer::Nothing;
        };
        self.put(rest);
        if let Some(inner) = opened {
            self.depth = self.depth.saturating_add(1);
            self.put(inner);
        }
        answer
    }

    fn close(&mut self) -> Answer<'a> {
        if self.depth == 0 {
            return Answer::Nothing;
        }
        self.depth -= 1;
        Answer::Truth(true)
    }
}
