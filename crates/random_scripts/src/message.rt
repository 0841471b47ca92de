// The payloads of random scripts, written form by form.

use crate::numbers::{put_groups, put_pool};
use crate::random::Random;
use rb_trees::{Memory, Version};
use std::alloc::Global;

/// How many blocks stand within each other that may have steps.
const BLOCKS: u32 = 3;

/// How many expressions with parts stand within each other.
const EXPRS: u32 = 4;

/// The greatest number of a variable.
const LAST: u32 = 4_294_967_295;

/// Texts of literals and inputs.
static TEXTS: [&str; 8] = [
    "",
    "a",
    "size",
    "\n\"\\",
    "\u{e9}",
    "\u{20ac} 5",
    "\u{1f600}\u{10ffff}",
    "a text of more than thirty-two bytes",
];

/// Names of methods. One of them is a text too.
static NAMES: [&str; 6] = ["n", "_", "file", "grow_by", "size", "__init__"];

/// A payload that is written, behind its version and its pool of texts; the texts of the pool; and what its script has had so
/// far: the variables that are bound, the inputs that are single values, those that are lists, and the number of steps.
#[derive(Drop)]
struct Writer {
    version: Version,
    bytes: Vec<u8>,
    pool: Vec<&'static str>,
    bound: Vec<u32>,
    singles: Vec<u8>,
    lists: Vec<u8>,
    steps: u32,
}

/// The payload of a random script with its inputs in a version.
pub fn message(alloc: Global, version: Version, random: &mut Random) -> Result<Vec<u8>, Memory> {
    let mut writer = Writer {
        version,
        bytes: Vec::new(alloc),
        pool: Vec::new(alloc),
        bound: Vec::new(alloc),
        singles: Vec::new(alloc),
        lists: Vec::new(alloc),
        steps: 0,
    };
    writer.message(random)?;
    let Writer { bytes, pool, .. } = writer;
    let mut whole = Vec::new(alloc);
    match version {
        Version::One => whole.push(0x01)?,
        Version::Two => {
            whole.push(0x02)?;
            put_pool(pool.as_slice(), &mut whole)?;
        }
    }
    whole.extend_from_slice(bytes.as_slice())?;
    Ok(whole)
}

impl Writer {
    /// The inputs and the code.
    fn message(&mut self, random: &mut Random) -> Result<(), Memory> {
        let inputs = random.below(4);
        self.byte((inputs % 256) as u8)?;
        for number in 0..inputs {
            self.input_value(random, (number % 256) as u8)?;
        }
        self.block(random, BLOCKS)
    }

    fn byte(&mut self, byte: u8) -> Result<(), Memory> {
        self.bytes.push(byte)?;
        Ok(())
    }

    fn number(&mut self, number: u32) -> Result<(), Memory> {
        match self.version {
            Version::One => {
                self.bytes.extend_from_slice(&number.to_be_bytes())?;
                Ok(())
            }
            Version::Two => put_groups(u64::from(number), &mut self.bytes),
        }
    }

    /// A number of 32 bits, as often a small one.
    fn any_number(&mut self, random: &mut Random) -> Result<(), Memory> {
        let number = random.word();
        if random.coin() {
            return self.number(number);
        }
        self.number(number % 300)
    }

    /// The place of a text in the pool, where it may be new.
    fn place_of(&mut self, text: &'static str) -> Result<u32, Memory> {
        let mut place: u32 = 0;
        for other in self.pool.as_slice() {
            if *other == text {
                return Ok(place);
            }
            place = place.wrapping_add(1);
        }
        self.pool.push(text)?;
        Ok(place)
    }

    /// A text or a name.
    fn text(&mut self, text: &'static str) -> Result<(), Memory> {
        match self.version {
            Version::One => {
                self.number((text.len() % 4096) as u32)?;
                self.bytes.extend_from_slice(text.as_bytes())?;
                Ok(())
            }
            Version::Two => {
                let place = self.place_of(text)?;
                self.number(place)
            }
        }
    }

    /// An Int, as often a small one. In version 2 each number without a sign is that of an Int.
    fn int(&mut self, random: &mut Random) -> Result<(), Memory> {
        let number = if random.coin() {
            random.long_word()
        } else {
            u64::from(random.byte())
        };
        match self.version {
            Version::One => {
                self.bytes.extend_from_slice(&number.to_be_bytes())?;
                Ok(())
            }
            Version::Two => put_groups(number, &mut self.bytes),
        }
    }

    fn truth(&mut self, random: &mut Random) -> Result<(), Memory> {
        self.byte(u8::from(random.coin()))
    }

    fn value(&mut self, random: &mut Random) -> Result<(), Memory> {
        match random.below(3) {
            0 => {
                self.byte(0x01)?;
                self.int(random)
            }
            1 => {
                self.byte(0x02)?;
                self.truth(random)
            }
            _ => {
                self.byte(0x03)?;
                self.text(TEXTS[random.below(8)])
            }
        }
    }

    /// The value of an input, in version 2 as often a list.
    fn input_value(&mut self, random: &mut Random, number: u8) -> Result<(), Memory> {
        match (self.version, random.coin()) {
            (Version::Two, true) => {
                self.lists.push(number)?;
                self.byte(0x04)?;
                let count = random.below(4) as u32;
                self.number(count)?;
                for _ in 0..count {
                    self.value(random)?;
                }
                Ok(())
            }
            _ => {
                self.singles.push(number)?;
                self.value(random)
            }
        }
    }

    fn root(&mut self) -> Result<(), Memory> {
        self.byte(0x23)
    }

    /// An input that is no list, or the root where there is none.
    fn input(&mut self, random: &mut Random) -> Result<(), Memory> {
        if self.singles.is_empty() {
            return self.root();
        }
        let input = self.singles[random.below(self.singles.len())];
        self.byte(0x21)?;
        self.byte(input)
    }

    /// A variable that is bound, or the root where there is none.
    fn variable(&mut self, random: &mut Random) -> Result<(), Memory> {
        if self.bound.is_empty() {
            return self.root();
        }
        let variable = self.bound[random.below(self.bound.len())];
        self.byte(0x22)?;
        self.number(variable)
    }

    /// An expression without parts.
    fn leaf(&mut self, random: &mut Random) -> Result<(), Memory> {
        match random.below(4) {
            0 => {
                self.byte(0x20)?;
                self.value(random)
            }
            1 => self.input(random),
            2 => self.variable(random),
            _ => self.root(),
        }
    }

    /// An operator and its operands.
    #[cycle(exprs)]
    fn operator(&mut self, random: &mut Random, binary: bool, depth: u32) -> Result<(), Memory> {
        if binary {
            self.byte(0x25)?;
            self.byte((1 + random.below(13)) as u8)?;
            self.any_number(random)?;
            self.expr(random, depth)?;
        } else {
            self.byte(0x24)?;
            self.byte((1 + random.below(4)) as u8)?;
            self.any_number(random)?;
        }
        self.expr(random, depth)
    }

    /// A call with up to two arguments.
    #[cycle(exprs)]
    fn call(&mut self, random: &mut Random, depth: u32) -> Result<(), Memory> {
        self.byte(0x26)?;
        self.any_number(random)?;
        self.byte(random.below(9) as u8)?;
        self.text(NAMES[random.below(6)])?;
        self.expr(random, depth)?;
        let count = random.below(3) as u32;
        self.number(count)?;
        for _ in 0..count {
            self.expr(random, depth)?;
        }
        Ok(())
    }

    #[cycle(exprs)]
    fn expr(&mut self, random: &mut Random, depth: u32) -> Result<(), Memory> {
        if depth == 0 {
            return self.leaf(random);
        }
        match random.below(6) {
            0 => self.operator(random, false, depth - 1),
            1 => self.operator(random, true, depth - 1),
            2 | 3 => self.call(random, depth - 1),
            _ => self.leaf(random),
        }
    }

    /// The number of a step, which no other step has, and its position.
    fn step_start(&mut self, random: &mut Random, tag: u8) -> Result<(), Memory> {
        self.byte(tag)?;
        self.steps = self.steps.wrapping_add(1);
        self.number(self.steps)?;
        self.any_number(random)
    }

    /// A variable, which was often bound before.
    fn some_variable(&mut self, random: &mut Random) -> Result<u32, Memory> {
        let variable = LAST.wrapping_add(random.below(4) as u32);
        self.number(variable)?;
        Ok(variable)
    }

    /// The variable of a Let or an Each, and whether it is kept.
    fn binding(&mut self, random: &mut Random) -> Result<u32, Memory> {
        let variable = self.some_variable(random)?;
        self.truth(random)?;
        Ok(variable)
    }

    /// A step without blocks.
    fn plain_step(&mut self, random: &mut Random) -> Result<(), Memory> {
        match random.below(3) {
            0 => {
                self.step_start(random, 0x10)?;
                self.expr(random, EXPRS)
            }
            1 => {
                self.step_start(random, 0x11)?;
                self.expr(random, EXPRS)
            }
            _ => {
                self.step_start(random, 0x12)?;
                let variable = self.binding(random)?;
                self.expr(random, EXPRS)?;
                self.bound.push(variable)?;
                Ok(())
            }
        }
    }

    #[cycle(steps)]
    fn if_step(&mut self, random: &mut Random, depth: u32) -> Result<(), Memory> {
        self.step_start(random, 0x13)?;
        self.expr(random, EXPRS)?;
        self.block(random, depth)?;
        self.block(random, depth)
    }

    /// The block of a step that binds a variable for it.
    #[cycle(steps)]
    fn binding_block(
        &mut self,
        random: &mut Random,
        variable: u32,
        depth: u32,
    ) -> Result<(), Memory> {
        let bound = self.bound.len();
        self.bound.push(variable)?;
        self.block(random, depth)?;
        self.bound.truncate(bound);
        Ok(())
    }

    #[cycle(steps)]
    fn each_step(&mut self, random: &mut Random, depth: u32) -> Result<(), Memory> {
        self.step_start(random, 0x14)?;
        let variable = self.binding(random)?;
        self.expr(random, EXPRS)?;
        self.binding_block(random, variable, depth)
    }

    /// A step over a list, or one without blocks where there is no list.
    #[cycle(steps)]
    fn over_step(&mut self, random: &mut Random, depth: u32) -> Result<(), Memory> {
        if self.lists.is_empty() {
            return self.plain_step(random);
        }
        let list = self.lists[random.below(self.lists.len())];
        self.step_start(random, 0x15)?;
        let variable = self.some_variable(random)?;
        self.byte(list)?;
        self.binding_block(random, variable, depth)
    }

    #[cycle(steps)]
    fn step(&mut self, random: &mut Random, depth: u32) -> Result<(), Memory> {
        match random.below(6) {
            0 => self.if_step(random, depth),
            1 => self.each_step(random, depth),
            2 => self.over_step(random, depth),
            _ => self.plain_step(random),
        }
    }

    /// A block of up to four steps.
    #[cycle(steps)]
    fn block(&mut self, random: &mut Random, depth: u32) -> Result<(), Memory> {
        if depth == 0 {
            return self.number(0);
        }
        let bound = self.bound.len();
        let count = (random.below(3) + random.below(3)) as u32;
        self.number(count)?;
        for _ in 0..count {
            self.step(random, depth - 1)?;
        }
        self.bound.truncate(bound);
        Ok(())
    }
}
