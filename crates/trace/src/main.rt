// Plays a script, read from standard input, and tells of each round its number and all that happened.
#![tactic(auto)]

use night::Telling;
use std::io;

fn main(rt: HostRuntime) -> io::Result<()> {
    night::play(&rt, Telling::Trace)
}
