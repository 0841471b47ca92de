// The words of the commands.

ghost use Rattle.std.specs.Prelude.{◌≡◌};
ghost use Rattle.std.specs.Option.{option_map};
ghost use Rattle.rb_top.specs.Trials.{asked_in_trial};
ghost use Rattle.rb_top.specs.Words.{texts, wanted, wanted_by, asked_by, asked_job, program_name, view_of, run_of, run_on_files_of, run_or_serve_of, keep_of, way_of, child_of, serving_by};

use crate::numbers::{count_of, fuel_of, trial_count_of};

/// The fuel of a run, where the words name none.
const DEFAULT_FUEL: u64 = 1_000_000;

/// How a program is run on a service in a file.
#[derive(Clone, Copy, Drop)]
pub enum Way {
    /// `both`: the script of each batch goes over a link in memory, and the rest of the batch runs on the reply.
    Both,
    /// `unsplit`: each remote operation is performed where it stands.
    Unsplit,
    /// `pair`: as `both`, over a link to a child process that serves the service.
    Pair,
    /// `trial`: as `both`, and in place of the table it is said how many objects there are.
    Trial,
}

/// A run that is asked for: the way, the names of the files of the program and of the service, and the fuel.
#[derive(Drop)]
pub struct Job<'w> {
    pub way: Way,
    pub program: &'w str,
    pub service: &'w str,
    pub fuel: u64,
}

/// A run over a link that is asked for: the address of the server, the name of the program's file, and the fuel.
#[derive(Drop)]
pub struct Call<'w> {
    pub address: &'w str,
    pub program: &'w str,
    pub fuel: u64,
}

/// What is asked of a program, with the names of its files.
#[derive(Drop)]
pub enum Task<'w> {
    /// `check P`: says whether the program in the file P is accepted.
    Check(&'w str),
    /// `split P`: shows how the batches of the program in the file P are divided.
    Split(&'w str),
    /// `both P S [FUEL]`, `unsplit P S [FUEL]` and `pair P S [FUEL]`: runs the program in the file P on the service in the file
    /// S, with so much fuel.
    Run(Job<'w>),
    /// `run ADDRESS P [FUEL]`: runs the program in the file P over a link to the server at an address, with so much fuel.
    Call(Call<'w>),
}

/// What is asked of a server: the address that it listens at, the name of the file of its service, and how many sessions it serves
/// at most.
#[derive(Drop)]
pub struct Serving<'w> {
    pub address: &'w str,
    pub service: &'w str,
    pub count: u32,
}

/// What is asked of a server that keeps its requests: the same, and the name of the journal's disk.
#[derive(Drop)]
pub struct Keeping<'w> {
    pub serving: Serving<'w>,
    pub journal: &'w str,
}

/// What is asked of a hub: the names of the files of its events and of its service.
#[derive(Drop)]
pub struct Playing<'w> {
    pub events: &'w str,
    pub service: &'w str,
}

/// What is asked of a server by a request in JSON: the names of the files of its service and of the request.
#[derive(Drop)]
pub struct Asking<'w> {
    pub service: &'w str,
    pub request: &'w str,
}

/// A command that was understood.
#[derive(Drop)]
pub enum Command<'w> {
    Program(Task<'w>),
    /// `serve ADDRESS S COUNT`: serves the service in the file S over the sessions that come at an address.
    Serve(Serving<'w>),
    /// `keep ADDRESS S COUNT J`: serves the same, and keeps the accepted requests in the journal J.
    Keep(Keeping<'w>),
    /// `child S`: serves the service in the file S over one session at `-`, and prints nothing.
    Child(&'w str),
    /// `trial N`: runs the program of a trial on its service of N files.
    Trial(u64),
    /// `hub E S`: plays the events in the file E by a hub over the service in the file S.
    Hub(Playing<'w>),
    /// `json S R`: answers the request in JSON in the file R on the service in the file S.
    Json(Asking<'w>),
}

impl Job<'_> {
    /// What is asked of the program of a trial.
    #[tactic(auto, unfolding(crate::specs::Words::default_fuel))]
    pub fn of_trial() -> Job<'static>
        ensures { asked_job result ≡ asked_in_trial }
    {
        Job {
            way: Way::Trial,
            program: "p",
            service: "s",
            fuel: DEFAULT_FUEL,
        }
    }
}

impl Task<'_> {
    /// The name of the program's file.
    pub fn program(&self) -> &str
        ensures { result.now ≡ program_name (asked_by self.now) }
    {
        match self {
            Task::Check(program) => program,
            Task::Split(program) => program,
            Task::Run(job) => job.program,
            Task::Call(call) => call.program,
        }
    }
}

impl<'w> Serving<'w> {
    /// What is asked of the server of `child S`: one session at `-`.
    pub fn of_child(service: &'w str) -> Serving<'w>
        ensures { serving_by result ≡ child_of service.now }
    {
        Serving {
            address: "-",
            service,
            count: 1,
        }
    }
}

/// The command of two words, of which the second is a file or a number.
fn view_command<'w>(command: &str, operand: &'w str) -> Option<Command<'w>>
    ensures { option_map wanted_by result ≡ view_of command.now operand.now }
{
    if command == "check" {
        Some(Command::Program(Task::Check(operand)))
    } else if command == "split" {
        Some(Command::Program(Task::Split(operand)))
    } else if command == "child" {
        Some(Command::Child(operand))
    } else if command == "trial" {
        let count = trial_count_of(operand)?;
        Some(Command::Trial(count))
    } else {
        None
    }
}

/// The way of a run that a word names.
fn way_of(word: &str) -> Option<Way>
    ensures { result ≡ way_of word.now }
{
    if word == "both" {
        Some(Way::Both)
    } else if word == "unsplit" {
        Some(Way::Unsplit)
    } else if word == "pair" {
        Some(Way::Pair)
    } else {
        None
    }
}

/// What is asked of a program by a word and two more, with so much fuel.
#[tactic(auto, unfolding(crate::specs::Words::run_of))]
fn run_task<'w>(command: &str, first: &'w str, second: &'w str, fuel: u64) -> Option<Task<'w>>
    ensures { option_map asked_by result ≡ run_of command.now first.now second.now fuel }
{
    if command == "run" {
        return Some(Task::Call(Call {
            address: first,
            program: second,
            fuel,
        }));
    }
    let way = way_of(command)?;
    Some(Task::Run(Job {
        way,
        program: first,
        service: second,
        fuel,
    }))
}

/// The command of four words, of which the last is a number.
#[tactic(auto, unfolding(crate::specs::Words::run_or_serve_of))]
fn numbered_command<'w>(
    command: &str,
    first: &'w str,
    second: &'w str,
    number: &str,
) -> Option<Command<'w>>
    ensures { option_map wanted_by result ≡ run_or_serve_of command.now first.now second.now number.now }
{
    if command == "serve" {
        let count = count_of(number)?;
        return Some(Command::Serve(Serving {
            address: first,
            service: second,
            count,
        }));
    }
    let fuel = fuel_of(number)?;
    let task = run_task(command, first, second, fuel)?;
    Some(Command::Program(task))
}

/// The command of three words.
#[tactic(auto, unfolding(crate::specs::Words::default_fuel, crate::specs::Words::run_on_files_of))]
fn plain_command<'w>(command: &str, first: &'w str, second: &'w str) -> Option<Command<'w>>
    ensures { option_map wanted_by result ≡ run_on_files_of command.now first.now second.now }
{
    if command == "hub" {
        return Some(Command::Hub(Playing {
            events: first,
            service: second,
        }));
    }
    if command == "json" {
        return Some(Command::Json(Asking {
            service: first,
            request: second,
        }));
    }
    let task = run_task(command, first, second, DEFAULT_FUEL)?;
    Some(Command::Program(task))
}

/// The command of five words.
#[tactic(auto, unfolding(crate::specs::Words::keep_of))]
fn keep_command<'w>(
    command: &str,
    address: &'w str,
    service: &'w str,
    number: &str,
    journal: &'w str,
) -> Option<Command<'w>>
    ensures { option_map wanted_by result ≡ keep_of command.now address.now service.now number.now journal.now }
{
    if command != "keep" {
        return None;
    }
    let count = count_of(number)?;
    Some(Command::Keep(Keeping {
        serving: Serving {
            address,
            service,
            count,
        },
        journal,
    }))
}

/// The command that the words are, or None where they are none.
pub fn command_of(words: &[String]) -> Option<Command<'_>>
    ensures { option_map wanted_by result ≡ wanted (texts words.now) }
{
    match words {
        [command, operand] => view_command(command.as_str(), operand.as_str()),
        [command, first, second] => {
            plain_command(command.as_str(), first.as_str(), second.as_str())
        }
        [command, first, second, number] => numbered_command(
            command.as_str(),
            first.as_str(),
            second.as_str(),
            number.as_str(),
        ),
        [command, address, service, number, journal] => keep_command(
            command.as_str(),
            address.as_str(),
            service.as_str(),
            number.as_str(),
            journal.as_str(),
        ),
        _ => None,
    }
}
