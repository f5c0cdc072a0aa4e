// Reads the lines of a play script into commands.
#![tactic(auto)]

mod lines;
mod reading;
mod words;

pub use lines::Line;
pub use reading::read;
use who::Who;

// One line of a script. `spelt`, in specs/Spelling.antt, says how each is written, and `Valid` which numbers it takes.
#[derive(Clone, Copy, Debug, PartialEq, Eq)]
pub enum Command {
    Move,
    Round { rounds: u32 },
    Write { page: u32, word: u64 },
    Fall { host: Who, ask: u32, after: bool },
    Lose { letter: u32 },
    Again,
    Any { seed: u64, rounds: u32 },
    Where,
    Anew,
}

#[cfg(test)]
mod tests;
