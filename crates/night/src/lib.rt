// Plays a script, read from standard input, on two hosts in memory with 32 pages, and prints what it asks for and what happens.
#![tactic(auto)]

ghost use Rattle.std.specs.Prelude.{◌≡◌};

use hosts::log::What;
use hosts::{Guest, empty_memory};
use plan::{Chance, Fall, Write};
use rounds::{Round, Simulation};
use script::{Command, Line};
use std::io;
use std::io::Read;
use std::ops::Range;
use who::Who;

const PAGES: u32 = 32;

// What is printed of a round: what happened in it, but for lost letters; or first its number, and then all that happened.
#[derive(Clone, Copy, Debug, PartialEq, Eq)]
pub enum Telling {
    Plain,
    Trace,
}

// What was read, which of it is not used yet, and how many lines there were. It's not read by `std::io::BufReader`, which allocates.
#[derive(Drop)]
struct Input {
    bytes: [u8; 4096],
    rest: Range<usize>,
    lines: u64,
}

impl Input {
    fn new() -> Input {
        Input {
            bytes: [0; 4096],
            rest: 0..0,
            lines: 0,
        }
    }

    // The next byte; none at the end.
    fn byte(&mut self, rt: &HostRuntime) -> io::Result<Option<u8>> {
        if self.rest.is_empty() {
            self.rest = 0..rt.stdin().read(&mut self.bytes)?;
        }
        let Some(at) = self.rest.next() else {
            return Ok(None);
        };
        Ok(self.bytes.get(at).copied())
    }

    // The next line, without its end, if there is one. A last line counts without an end too.
    fn line(&mut self, rt: &HostRuntime) -> io::Result<Option<Line>> {
        let mut line = Line::new();
        self.lines = self.lines.saturating_add(1);
        for _ in 0..u64::MAX {
            match self.byte(rt)? {
                Some(b'\n') => return Ok(Some(line)),
                Some(b) => line.push(b),
                None => break,
            }
        }
        if line.is_empty() {
            return Ok(None);
        }
        Ok(Some(line))
    }
}

// A play, where and how it is told of, how many rounds it had, and whether the last one was late.
#[derive(Drop)]
struct Night<'r, 'a> {
    rt: &'r HostRuntime,
    telling: Telling,
    simulation: Simulation<'a>,
    rounds: u64,
    late: bool,
}

impl<'r, 'a> Night<'r, 'a> {
    // What happened in a round, a line each.
    fn tell(&mut self) -> io::Result<()>
        ensures stays { (self.new.simulation.play ≡ self.old.simulation.play) × (self.new.late ≡ self.old.late) }
    {
        let rt = self.rt;
        let all = self.telling == Telling::Trace;
        if all {
            let number = self.rounds;
            println!(rt; "round {number}")?;
        }
        let log = &mut self.simulation.hosts.log;
        for event in log.events() {
            if all || event.what != What::Lose {
                println!(rt; "{event}")?;
            }
        }
        let missed = log.missed();
        if missed > 0 {
            println!(rt; "missed {missed}")?;
        }
        log.clear();
        Ok(())
    }

    // A round, and what happened in it.
    fn round(&mut self) -> io::Result<()> {
        let was = self.late;
        match self.simulation.round() {
            Round::Fine => self.late = false,
            Round::Late => self.late = true,
            Round::Over => return Ok(()),
        }
        self.rounds = self.rounds.saturating_add(1);
        self.tell()?;
        if self.late & !was {
            println!(self.rt; "late")?;
        }
        Ok(())
    }

    fn rounds(&mut self, many: u32) -> io::Result<()> {
        for _ in 0..many {
            self.round()?;
        }
        Ok(())
    }

    // Somebody wants the guest to be moved.
    fn want(&mut self) -> io::Result<()>
        ensures stays { (self.new.simulation.play ≡ self.old.simulation.play) × (self.new.late ≡ self.old.late) }
    {
        if !self.simulation.hosts.may_want() {
            return println!(self.rt; "no");
        }
        self.simulation.hosts.plan.wish = true;
        self.simulation.between();
        Ok(())
    }

    // The guest fills a page.
    fn write(&mut self, write: Write) -> io::Result<()>
        ensures stays { (self.new.simulation.play ≡ self.old.simulation.play) × (self.new.late ≡ self.old.late) }
    {
        let Guest::Runs(_) = self.simulation.hosts.guest() else {
            return println!(self.rt; "no");
        };
        self.simulation.hosts.plan.write = Some(write);
        self.simulation.between();
        Ok(())
    }

    // So many rounds in which a generator decides what goes wrong.
    fn any(&mut self, seed: u64, many: u32) -> io::Result<()> {
        self.simulation.hosts.plan.chance = Chance {
            random: true,
            word: seed,
        };
        self.rounds(many)?;
        self.simulation.hosts.plan.chance.random = false;
        Ok(())
    }

    fn obey(&mut self, command: Command) -> io::Result<()> {
        match command {
            Command::Move => return self.want(),
            Command::Round { rounds } => return self.rounds(rounds),
            Command::Write { page, word } => return self.write(Write { page, word }),
            // (zero and one are fields that are set by name)
            Command::Fall { host, ask, after } => match host {
                Who::Zero => self.simulation.hosts.plan.zero = Fall { ask, after },
                Who::One => self.simulation.hosts.plan.one = Fall { ask, after },
            },
            Command::Lose { letter } => self.simulation.hosts.plan.lose = letter,
            Command::Again => self.simulation.hosts.repeat(),
            Command::Any { seed, rounds } => return self.any(seed, rounds),
            Command::Where => {
                let guest = self.simulation.hosts.guest();
                return println!(self.rt; "{guest}");
            }
            Command::Anew => {}
        }
        Ok(())
    }

    // Plays what the input says. True: all is to begin anew; false: there is nothing more to play.
    fn play(&mut self, input: &mut Input) -> io::Result<bool> {
        for _ in 0..u64::MAX {
            let Some(line) = input.line(self.rt)? else {
                return Ok(false);
            };
            match line.command(PAGES) {
                None => {
                    let number = input.lines;
                    println!(self.rt; "line {number}?")?;
                }
                Some(Command::Anew) => return Ok(true),
                Some(command) => self.obey(command)?,
            }
        }
        Ok(false)
    }
}

// Plays what standard input says.
pub fn play(rt: &HostRuntime, telling: Telling) -> io::Result<()> {
    let mut memory = empty_memory!(32);
    let mut input = Input::new();
    for _ in 0..u64::MAX {
        let Ok(hosts) = memory.hosts(PAGES) else {
            unreachable()
        };
        let mut night = Night {
            rt,
            telling,
            simulation: Simulation::new(hosts),
            rounds: 0,
            late: false,
        };
        if !night.play(&mut input)? {
            return Ok(());
        }
    }
    Ok(())
}
