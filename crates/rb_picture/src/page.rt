// An SVG page that is being made.

use crate::escapes::add_escaped;
use rb_trees::{Memory, Seq, Word};
use std::alloc::Global;

/// How wide a character is.
pub const CHARACTER: usize = 8;

/// How far the lines are from each other.
pub const LINE: usize = 20;

/// How far all is from the page's edges, and a panel from the next.
pub const MARGIN: usize = 24;

/// What stands on the page so far, and how large the page has to be for it.
#[derive(Drop)]
pub struct Page {
    alloc: Global,
    body: Word,
    width: usize,
    height: usize,
}

/// The front of each page: the forms of its texts, and the arrows' heads.
const STYLES: &str = "\
<style>text{font:13px ui-monospace,Menlo,Consolas,monospace;white-space:pre}\
.title{font-weight:bold}.remote{fill:#b4532a}.constant{fill:#2b5fa8}.local{fill:#1f6f54}.plain{fill:#555}</style>
<defs><marker id=\"head\" viewBox=\"0 0 8 8\" refX=\"7\" refY=\"4\" markerWidth=\"6\" markerHeight=\"6\" orient=\"auto\">\
<path d=\"M0,0 L8,4 L0,8 z\" fill=\"#b00020\"/></marker></defs>
<rect width=\"100%\" height=\"100%\" fill=\"#fff\"/>
";

impl Page {
    /// An empty page.
    pub fn new(alloc: Global) -> Page {
        Page {
            alloc,
            body: Seq::new(alloc),
            width: 0,
            height: 0,
        }
    }

    /// Where memory is had from.
    pub fn alloc(&self) -> Global {
        self.alloc
    }

    /// Adds a piece of SVG as it stands.
    pub fn add(&mut self, piece: &str) -> Result<(), Memory> {
        self.body.extend_from_slice(piece.as_bytes())
    }

    /// Adds a piece of a text, of which no character counts as SVG.
    pub fn add_text(&mut self, piece: &[u8]) -> Result<(), Memory> {
        add_escaped(piece, &mut self.body)
    }

    /// Sees to it that the page reaches so far to the right and down.
    pub fn reach(&mut self, right: usize, down: usize) {
        self.width = self.width.max(right);
        self.height = self.height.max(down);
    }

    /// How far down the page reaches.
    pub fn height(&self) -> usize {
        self.height
    }

    /// The whole page.
    pub fn into_svg(self) -> Result<Word, Memory> {
        let width = self.width.saturating_add(MARGIN);
        let height = self.height.saturating_add(MARGIN);
        let head = format!(in self.alloc;
            "<svg xmlns=\"http://www.w3.org/2000/svg\" viewBox=\"0 0 {width} {height}\" width=\"{width}\" height=\"{height}\">\n"
        )?;
        let mut svg = Seq::new(self.alloc);
        svg.extend_from_slice(head.as_bytes())?;
        svg.extend_from_slice(STYLES.as_bytes())?;
        svg.extend_from_slice(self.body.as_slice())?;
        svg.extend_from_slice(b"</svg>\n")?;
        Ok(svg)
    }
}
