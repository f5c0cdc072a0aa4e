// What a host may ask, what no host sees, two hosts, and the nights between.
#![tactic(auto)]

ghost use Rattle.std.specs.Prelude.{◌≡◌, ℕ, ◌<◌, ◌≤◌, Bool, true, false, not, T, [], length, is_ok, Ok, OnOk};
ghost use Rattle.moving.specs.Hosts.{World, Does, Posts, Gets, Between, MayResume, MayStop, MayPut, InTime, AtStart, me, put_page, untouched, kept, heard, stopped, resumed, seated, renewed, rounded};
ghost use Rattle.moving.specs.Promise.{OneTruth, LostStays};
ghost use Rattle.moving.specs.Model.{Rested};
ghost use Rattle.moving.specs.Invariant.{fresh, Ready, Keeps};
ghost use Rattle.moving.specs.Acted.{Turned};
ghost use Rattle.moving.specs.Used.{Counts};
ghost use Rattle.moving.specs.Over.{TurnedOver};

// The host has fallen: nothing that it knows is left but its cells.
#[derive(Clone, Copy, Debug, PartialEq, Eq)]
pub struct Down;

// What a host may ask, for itself; it may fall over each. A guest that runs goes on writing meanwhile.
// (The text of this trait, of `Sky`, of the heads of `Node::new` and `turn` and of `one_truth` is fixed: docs/DECISIONS.md.)
pub trait Place {
    ghost world: { Self → World };

    fn pages(&self) -> u32
        ensures { result ≡ (world self.now).pages };
    // a page of its own
    fn page(&mut self, p: u32, into: &mut [u64]) -> Result<(), Down>
        requires { (0 < (world self.old).left) × ((p < (world self.old).pages) × (length into.old ≡ 64)) }
        ensures { (Does (world self.old) (world self.old) (is_ok result) (world self.new)) × ((is_ok result ≡ true → into.new ≡ (me (world self.old)).page p)) };

    fn put(&mut self, p: u32, words: &[u64]) -> Result<(), Down>
        requires { (0 < (world self.old).left) × ((p < (world self.old).pages) × ((length words.now ≡ 64) × (MayPut (world self.old)))) }
        ensures { Does (world self.old) (put_page p words.now (world self.old)) (is_ok result) (world self.new) };
    // was it written by the guest since this was last asked
    fn touched(&mut self, p: u32) -> Result<bool, Down>
        requires { (0 < (world self.old).left) × (p < (world self.old).pages) }
        ensures { (Does (world self.old) (untouched p (world self.old)) (is_ok result) (world self.new)) × ((is_ok result ≡ true → result ≡ Ok ((me (world self.old)).touched p))) };
    // the guest, which runs here and is to be moved, stops
    fn stop(&mut self) -> Result<(), Down>
        requires { (0 < (world self.old).left) × (MayStop (world self.old)) }
        ensures { Does (world self.old) (stopped (world self.old)) (is_ok result) (world self.new) };
    // It goes on here, and cell 0 is x. That it may is the promise.
    fn resume(&mut self, x: u64) -> Result<(), Down>
        requires { (0 < (world self.old).left) × (MayResume (world self.old)) }
        ensures { Does (world self.old) (resumed x (world self.old)) (is_ok result) (world self.new) };
    // was it told to move its guest; it's told once
    fn told(&mut self) -> Result<bool, Down>
        requires { 0 < (world self.old).left }
        ensures { (Does (world self.old) (heard (world self.old)) (is_ok result) (world self.new)) × ((is_ok result ≡ true → result ≡ Ok (me (world self.old)).told)) };
    // 64 cells outlast a fall
    fn get(&mut self, c: u32) -> Result<u64, Down>
        requires { (0 < (world self.old).left) × (c < 64) }
        ensures { (Does (world self.old) (world self.old) (is_ok result) (world self.new)) × ((is_ok result ≡ true → result ≡ Ok ((me (world self.old)).cell c))) };

    fn keep(&mut self, c: u32, x: u64) -> Result<(), Down>
        requires { (0 < (world self.old).left) × (c < 64) }
        ensures { Does (world self.old) (kept c x (world self.old)) (is_ok result) (world self.new) };
    // a letter of 72 words to the other; one that has come
    fn send(&mut self, letter: &[u64]) -> Result<(), Down>
        requires { (0 < (world self.old).left) × (length letter.now ≡ 72) }
        ensures { Posts (world self.old) letter.now (is_ok result) (world self.new) };

    fn recv(&mut self, into: &mut [u64]) -> Result<bool, Down>
        requires { (0 < (world self.old).left) × (length into.old ≡ 72) }
        ensures { Gets (world self.old) result into.new (world self.new) };
}

// What no host sees.
pub trait Sky: Place {
    // whose turn it is; who has had one, stands (false: all is over)
    fn seat(&mut self, i: u32) -> bool
        requires { (Self.world self.old).fell ≡ false }
        ensures { T result → Self.world self.new ≡ seated i (Self.world self.old) };
    // it has fallen, and begins anew
    fn renew(&mut self)
        requires { (Self.world self.old).fell ≡ true }
        ensures { Self.world self.new ≡ renewed (Self.world self.old) };

    fn between(&mut self)
        ensures { Between (Self.world self.old) (Self.world self.new) };
    // Both had a turn. That all is in time is the other promise.
    fn round(&mut self)
        requires { T (InTime (Self.world self.old)) }
        ensures { Self.world self.new ≡ rounded (Self.world self.old) };
}

// What no host sees, where a round may end at any time: nothing is asked of how long the guest stands still. (The text of `Sky` is fixed, so that
// what the two have in common can't be taken out of it.)
pub trait AnySky: Place {
    // whose turn it is; who has had one, stands (false: all is over)
    fn seat(&mut self, i: u32) -> bool
        requires { (Self.world self.old).fell ≡ false }
        ensures { T result → Self.world self.new ≡ seated i (Self.world self.old) };
    // it has fallen, and begins anew
    fn renew(&mut self)
        requires { (Self.world self.old).fell ≡ true }
        ensures { Self.world self.new ≡ renewed (Self.world self.old) };

    fn between(&mut self)
        ensures { Between (Self.world self.old) (Self.world self.new) };
    // both had a turn
    fn round(&mut self)
        ensures { Self.world self.new ≡ rounded (Self.world self.old) };
}

mod acting;
mod asks;
mod hearing;
pub mod right;
mod sending;
pub mod state;
mod turning;

use state::{Running, State};

// What a host knows while it stands. me: its number, which tells its attempts (the remainder by 2) from the other's, so it stays a number.
// took, top, committed: copies of cells 0, 1 and 2, right while it's awake (an Option of the three would be a case more in each line of the invariant);
// asked: the attempt of the last probe or commit that it has heard in this turn.
#[derive(Drop)]
pub struct Node {
    pub me: u64,
    pub awake: bool,
    pub took: u64,
    pub top: u64,
    pub committed: u64,
    pub asked: Option<u64>,
    pub state: State,
}

impl Node {
    // begins: the guest runs there as all begins.
    pub fn new(i: u32, begins: bool) -> Node
        ensures { result ≡ fresh i begins }
    {
        let state = if begins {
            State::Running(Running { wanted: false })
        } else {
            State::Away
        };
        Node {
            me: i as u64,
            awake: begins,
            took: 0,
            top: 0,
            committed: 0,
            asked: None,
            state,
        }
    }

    // Reads its cells if it has just begun, hears what has come, does what is to be done by itself, and answers who asked.
    pub fn turn<P: Place>(&mut self, w: &mut P) -> Result<(), Down>
        requires soon { 256 ≤ (P.world w.old).left }
        requires up { (P.world w.old).fell ≡ false }
        requires rested { Rested self.old }
        requires ready { Ready 64 [] self.old (P.world w.old) }
        ensures only { is_ok result ≡ not (P.world w.new).fell }
        ensures rested { OnOk result (Rested self.new) }
        ensures is { OnOk result (Turned (P.world w.old) self.old self.new) }
        ensures makes { OnOk result (TurnedOver (P.world w.old) self.old self.new (P.world w.new)) }
        ensures counts { Counts (P.world w.old) (is_ok result) (P.world w.new) }
        ensures keeps { Keeps 64 [] self.old (P.world w.old) result (λ _. self.new) (P.world w.new) }
    {
        let left = self.wake(w)?;
        let left = self.hear(w, left)?;
        self.act(w, left - 1)?;
        self.reply(w)
    }
}

pub fn node_is_small() -> bool
    ensures { T result }
{
    std::mem::size_of::<Node>() <= 65536
}

// THE FIRST PROMISE. Whatever the guest writes, whatever the line does, whichever host falls, and however long the guest stands still:
// `resume`, `stop` and `put` are only asked for when they may be. (The nights are counted by hand, as in `nights`, the same loop over `Sky`, whose text is
// fixed; it isn't proved yet, and comes into the crate with its proof.)
pub fn safe_nights<W: Place + AnySky>(w: &mut W, many: u64)
    requires starts { AtStart (W.world w.old) }
    requires few { many < 281474976710656 }
{
    let mut a = Node::new(0, true);
    let mut b = Node::new(1, false);
    let mut n: u64 = 0;
    while n < many {
        n += 1;
        w.between();
        if !w.seat(0) {
            return;
        }
        if let Err(Down) = a.turn(w) {
            w.renew();
            a = Node::new(0, false);
        }
        if !w.seat(1) {
            return;
        }
        if let Err(Down) = b.turn(w) {
            w.renew();
            b = Node::new(1, false);
        }
        w.round();
    }
}

// What is promised beside, each a theorem that a contract names. (It gives a number since its text is fixed.)
pub fn one_truth() -> u8
    ensures { (OneTruth) × (LostStays) }
{
    0
}
