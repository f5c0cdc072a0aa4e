// Plays a script, read from standard input.
#![tactic(auto)]

use night::Telling;
use std::io;

fn main(rt: HostRuntime) -> io::Result<()> {
    night::play(&rt, Telling::Plain)
}
