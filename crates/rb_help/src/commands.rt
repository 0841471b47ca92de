// The forms of the commands.

ghost use Rattle.std.specs.Prelude.{◌≡◌, IfOk};
ghost use Rattle.std.specs.List.{flat_map};

use rb_trees::{Memory, Seq, Word};
use std::alloc::Global;

/// The lines that tell the forms of the commands, one for each command, and what their words are.
pub static USAGE: [&[u8]; 17] = [
    b"The commands, where P is the file of a program and S that of a service:\n",
    b"  check P                tell whether the program P is accepted\n",
    b"  split P                show how each batch of P is divided\n",
    b"  unsplit P S [FUEL]     run P as it stands on the service S, and send nothing\n",
    b"  both P S [FUEL]        run P, and S beside it in the same process\n",
    b"  run ADDRESS P [FUEL]   run P on the server that listens at ADDRESS\n",
    b"  pair P S [FUEL]        run P, and S beside it in a child process\n",
    b"  serve ADDRESS S COUNT  serve S at ADDRESS to COUNT clients, one after the other\n",
    b"  keep ADDRESS S COUNT J the same, and keep each request in the journal J before it is performed\n",
    b"  child S                serve S to one client over standard input and output\n",
    b"  hub E S                play the events of many clients, which stand in the file E, on S\n",
    b"  json S R               answer the request in JSON in the file R on S\n",
    b"  trial N                run a program of its own on a service of its own with N files\n",
    b"FUEL is how many calls and turns of loops the program may make, 1000000 where it is left out.\n",
    b"ADDRESS is a host and a port, such as 127.0.0.1:4000. COUNT is 1 to 1000000, and N is 1 to 10000.\n",
    b"`rbi help COMMAND` tells more of a command: what it does, its words, its statuses, an example.\n",
    b"`rbi --version` tells the version.\n",
];

/// The line that tells the version.
pub const VERSION: &[u8] = b"Lunguepo 1.0.0, whose messages are of versions 1 and 2.";

/// Lines one after the other.
#[tactic(auto, using(crate::proofs::Appended::pieces))]
fn joined(alloc: Global, lines: &[&[u8]]) -> Result<Word, Memory>
    ensures { IfOk result (λ text. text ≡ flat_map (λ line. line.now) lines.now) }
{
    let mut text = Seq::new(alloc);
    for line in lines {
        text.extend_from_slice(line)?;
    }
    Ok(text)
}

/// The forms of the commands, a line each with what they do: the lines of `USAGE`.
pub fn usage(alloc: Global) -> Result<Word, Memory>
    ensures { IfOk result (λ text. text ≡ flat_map (λ line. line.now) USAGE) }
{
    joined(alloc, &USAGE)
}
