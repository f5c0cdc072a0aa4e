// The same as `cellar`, for the rows of faults, which `tests/rows.py` writes.
#![tactic(auto)]

use night::Telling;
use std::io;

fn main(rt: HostRuntime) -> io::Result<()> {
    night::play(&rt, Telling::Plain)
}
