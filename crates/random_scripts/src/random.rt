// Random numbers that are always the same.

ghost use Rattle.std.specs.Prelude.{◌<◌};

/// A linear congruential generator.
#[derive(Drop)]
pub struct Random {
    state: u64,
}

impl Random {
    /// Begins with a seed.
    pub fn new(seed: u64) -> Random {
        Random { state: seed }
    }

    /// The next number, of 31 bits.
    fn next(&mut self) -> usize {
        self.state = self
            .state
            .wrapping_mul(6_364_136_223_846_793_005)
            .wrapping_add(1_442_695_040_888_963_407);
        (self.state >> 33) as usize
    }

    /// The next number below a bound that isn't 0.
    pub fn below(&mut self, bound: usize) -> usize
        requires { 0 < bound }
        ensures { result < bound }
    {
        self.next() % bound
    }

    /// The next byte.
    pub fn byte(&mut self) -> u8 {
        self.below(256) as u8
    }

    /// A word of the next four bytes.
    pub fn word(&mut self) -> u32 {
        u32::from_be_bytes([self.byte(), self.byte(), self.byte(), self.byte()])
    }

    /// A word of the next eight bytes.
    pub fn long_word(&mut self) -> u64 {
        u64::from(self.word()).wrapping_mul(4_294_967_296) | u64::from(self.word())
    }

    /// Whether the next number is even.
    pub fn coin(&mut self) -> bool {
        self.below(2) == 0
    }
}
