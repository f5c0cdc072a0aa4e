// Rounds over two hosts in memory: a turn of each node, as the nights have it, one round at a time.
#![tactic(auto)]

ghost use Rattle.std.specs.Prelude.{◌≡◌, ◌<◌};
ghost use Rattle.moving.specs.Hosts.{AtStart};
ghost use Rattle.hosts.specs.Follows.{world_of, BetweenAs};
ghost use Rattle.pair.specs.Worlds.{closed};
ghost use Rattle.who.specs.Numbers.{numb};
ghost use Rattle.rounds.specs.Plays.{Playing, Begins, Ends};

use hosts::Hosts;
use moving::{Down, Node, Sky};
use std::marker::Model;
use who::Who;

// Both nodes, and how many rounds they have had. The hosts are lent for each round.
#[derive(Drop)]
pub struct Play {
    zero: Node,
    one: Node,
    rounds: u64,
}

// Hosts that are kept with a play on them.
#[derive(Drop)]
pub struct Simulation<'a> {
    pub hosts: Hosts<'a>,
    play: Play,
}

// In a contract a simulation is its hosts and its play. What holds between rounds holds of every simulation.
impl<'a> Model for Simulation<'a> {
    ghost use Rattle.hosts.specs.Follows.{world_of};
    ghost use Rattle.rounds.specs.Plays.{Playing, Simulated};

    ghost Value = { Simulated };

    ghost view = { λ s. record { hosts = s.hosts; play = s.play } };

    ghost invariant = { λ s. Playing s.play (world_of s.hosts) };
}

// How a round has ended: as it should; late, which breaks the promise on time; or it wasn't played, since there were 2^48 - 1 already.
#[derive(Clone, Copy, Debug, PartialEq, Eq)]
pub enum Round {
    Fine,
    Late,
    Over,
}

// A turn of a node: one that falls is replaced by another.
fn turn(node: &mut Node, hosts: &mut Hosts, who: Who)
    requires { Begins (numb who) node.old (world_of hosts.old) }
    ensures { Ends (numb who) node.old (world_of hosts.old) node.new (world_of hosts.new) }
{
    let i = u32::from(who);
    if !hosts.seat(i) {
        return;
    }
    if let Err(Down) = node.turn(hosts) {
        hosts.renew();
        *node = Node::new(i, false);
    }
}

// The end of a round.
fn end(hosts: &mut Hosts) -> Round
    ensures { world_of hosts.new ≡ closed (world_of hosts.old) }
{
    let in_time = hosts.in_time();
    hosts.close();
    if in_time { Round::Fine } else { Round::Late }
}

impl Play {
    // All begins: the guest runs on host 0.
    pub fn new(hosts: &Hosts) -> Play
        requires { AtStart (world_of hosts.now) }
        ensures { Playing result (world_of hosts.now) }
    {
        Play {
            zero: Node::new(0, true),
            one: Node::new(1, false),
            rounds: 0,
        }
    }

    // A round: what is planned between rounds, and a turn of each host.
    pub fn round(&mut self, hosts: &mut Hosts) -> Round
        requires { Playing self.old (world_of hosts.old) }
        ensures { Playing self.new (world_of hosts.new) }
    {
        if self.rounds >= 281474976710655 {
            return Round::Over;
        }
        self.rounds += 1;
        hosts.between();
        turn(&mut self.zero, hosts, Who::Zero);
        turn(&mut self.one, hosts, Who::One);
        end(hosts)
    }

    // What is planned between rounds, without a round.
    pub fn between(&self, hosts: &mut Hosts)
        requires { Playing self.now (world_of hosts.old) }
        ensures planned { BetweenAs hosts.old hosts.new }
        ensures playing { Playing self.now (world_of hosts.new) }
    {
        hosts.between();
    }
}

impl<'a> Simulation<'a> {
    // All begins: the guest runs on host 0.
    pub fn new(hosts: Hosts<'a>) -> Simulation<'a>
        requires { AtStart (world_of hosts) }
        ensures is { result.hosts ≡ hosts.entry }
        ensures playing { Playing result.play (world_of result.hosts) }
    {
        let play = Play::new(&hosts);
        Simulation { hosts, play }
    }

    // A round: what is planned between rounds, and a turn of each host.
    pub fn round(&mut self) -> Round
        ensures { Playing self.new.play (world_of self.new.hosts) }
    {
        self.play.round(&mut self.hosts)
    }

    // What is planned between rounds, without a round.
    pub fn between(&mut self)
        ensures planned { BetweenAs self.old.hosts self.new.hosts }
        ensures stays { self.new.play ≡ self.old.play }
        ensures playing { Playing self.new.play (world_of self.new.hosts) }
    {
        self.play.between(&mut self.hosts);
    }
}
