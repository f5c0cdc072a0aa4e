// Moves guests of several sizes while nobody falls and no letter is lost, and prints how many rounds each took, and for how many of them
// the guest stood still: once with a guest that writes nothing, and once with one that writes 16 times a round.
#![tactic(auto)]

ghost use Rattle.std.specs.Prelude.{◌≡◌};

use hosts::{Guest, empty_memory};
use moving::Place;
use plan::Write;
use rounds::Simulation;
use std::io;
use who::Who;

// A move: its rounds, and those at whose end the guest stood still.
#[derive(Clone, Copy, Debug, PartialEq, Eq)]
struct Took {
    rounds: u64,
    still: u64,
}

// The page that a word falls on, of so many; 0 if there are none.
fn spread(word: u64, pages: u32) -> u32 {
    word.wrapping_mul(7919)
        .checked_rem(u64::from(pages))
        .unwrap_or(0) as u32
}

// The guest fills so many pages, far from each other, and others than in the round before. No round is played.
fn write(simulation: &mut Simulation, writes: u32, round: u64)
    ensures stays { simulation.new.play ≡ simulation.old.play }
{
    for i in 0..writes {
        let word = round.wrapping_mul(16).wrapping_add(u64::from(i));
        let page = spread(word, simulation.hosts.pages());
        simulation.hosts.plan.write = Some(Write { page, word });
        simulation.between();
    }
}

// Moves the guest from host 0 to host 1, or tries to for 40,000 rounds.
fn transfer(simulation: &mut Simulation, writes: u32) -> Took {
    let mut still: u64 = 0;
    simulation.hosts.plan.wish = true;
    simulation.between();
    for round in 0..40000u64 {
        if let Guest::Runs(Who::One) = simulation.hosts.guest() {
            return Took {
                rounds: round,
                still,
            };
        }
        write(simulation, writes, round);
        simulation.round();
        if let Guest::Stands(_) = simulation.hosts.guest() {
            still = still.saturating_add(1);
        }
    }
    Took {
        rounds: 40000,
        still,
    }
}

fn main(rt: HostRuntime) -> io::Result<()> {
    let mut memory = empty_memory!(4096);
    for pages in [1, 32, 256, 1024, 4096] {
        for writes in [0, 16] {
            let Ok(hosts) = memory.hosts(pages) else {
                return println!(rt; "no hosts");
            };
            let mut simulation = Simulation::new(hosts);
            let Took { rounds, still } = transfer(&mut simulation, writes);
            println!(rt; "{pages} pages, {writes} writes a round: {rounds} rounds, {still} still")?;
        }
    }
    Ok(())
}
