// What is dialled.

ghost use Rattle.std.specs.Prelude.{◌≡◌};
ghost use Rattle.rb_session.specs.Targets.{same_target};

use rb_trees::Word;

/// What a link is dialled to.
#[derive(Drop)]
pub enum Target {
    /// The server that listens at this address.
    Address(Word),
    /// This program as a child process, which serves the file of this name.
    Child(Word),
}

impl Target {
    /// Whether the other is of the same kind with the same word.
    pub fn is_same(&self, other: &Target) -> bool
        ensures { result ≡ same_target self.now other.now }
    {
        match (self, other) {
            (Target::Address(own), Target::Address(its)) => own.as_slice() == its.as_slice(),
            (Target::Child(own), Target::Child(its)) => own.as_slice() == its.as_slice(),
            _ => false,
        }
    }
}
