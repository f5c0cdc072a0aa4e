// What happens beside what the hosts ask for: falls, letters that are lost, kept, repeated and mixed up, what the guest writes, and the wish that it be moved.
// A plan says it: counts that its owner sets between rounds, and for random play a generator, whose word decides what comes with the next ask.
#![tactic(auto)]

ghost use Rattle.std.specs.Prelude.{◌≡◌, ◌&&◌, nat_le, ℕ, ◌+◌, ◌-◌, ◌*◌, ◌/◌, ◌%◌, ◌<◌, ◌≤◌, Bool, true, false, cond, Option};
ghost use Rattle.plan.specs.Plans.{stepped, drawn, part_of, roll_of, falls_by, less, mix_by, hand_by, fate_of, asked, post_of, posted, hand_of, handed, wreck_of, write_of, wish_of, wished, page_by, writes_of, wrote, calm};

use side::{Mix, Post, Wreck};
use who::Who;

// Whether the generator decides too, and its word.
// The two aren't one `Option`: the word is kept when play isn't random, and a fall leaves it in the pages.
#[derive(Clone, Copy, Debug, Default, PartialEq, Eq)]
pub struct Chance {
    pub random: bool,
    pub word: u64,
}

// A host falls over the n-th thing that it asks from here on, before or after that is done; 0: over none.
// The count runs down to 0 and stays there, so 0 is its end, and an `Option` would have to become `None` by a rule of its own.
#[derive(Clone, Copy, Debug, Default, PartialEq, Eq)]
pub struct Fall {
    pub ask: u32,
    pub after: bool,
}

// The guest fills a page with a word.
#[derive(Clone, Copy, Debug, PartialEq, Eq)]
pub struct Write {
    pub page: u32,
    pub word: u64,
}

#[derive(Clone, Copy, Debug, Default, PartialEq, Eq)]
pub struct Plan {
    pub zero: Fall,
    pub one: Fall,
    // the n-th letter that is sent from here on is lost; 0: none (a countdown too)
    pub lose: u32,
    // so often the oldest letter that is kept for host 1 comes there again, in front
    pub again: u32,
    // somebody wants the guest to be moved
    pub wish: bool,
    pub write: Option<Write>,
    pub chance: Chance,
}

// What becomes of an ask.
#[derive(Clone, Copy, Debug, PartialEq, Eq)]
pub enum Fate {
    Stands,
    Before,
    After,
}

// What a host gets that asks for a letter: the next; one that is kept, at that place from the oldest on, counted round; or none, and those that wait are mixed up.
#[derive(Clone, Copy, Debug, PartialEq, Eq)]
pub enum Hand {
    Next,
    Again(u32),
    Mixed(Mix, u32),
}

// The generator's next word.
fn step(x: u64) -> u64
    ensures { result ≡ stepped x }
{
    x.wrapping_mul(6364136223846793005)
        .wrapping_add(1442695040888963407)
}

// A part of the word: its upper half, divided by `by`, up to `of`.
fn part(x: u64, by: u64, of: u64) -> u32
    requires { (0 < by) × ((0 < of) × (of ≤ 4096)) }
    ensures { result ≡ part_of by of x }
{
    (x / 4294967296 / by % of) as u32
}

fn mix(x: u64) -> Mix
    ensures { result ≡ mix_by x }
{
    match part(x, 65536, 4) {
        0 => Mix::Still,
        1 => Mix::First,
        2 => Mix::Swap,
        _ => Mix::Double,
    }
}

impl Chance {
    // In random play the generator goes on to its next word.
    #[inline]
    fn draw(&mut self)
        ensures { self.new ≡ drawn self.old }
    {
        if self.random {
            self.word = step(self.word);
        }
    }

    // What a part of the word says, in random play.
    #[inline]
    fn roll(self, by: u64, of: u64) -> Option<u32>
        requires { (0 < by) × ((0 < of) × (of ≤ 4096)) }
        ensures { result ≡ roll_of by of self }
    {
        if self.random {
            Some(part(self.word, by, of))
        } else {
            None
        }
    }

    fn falls(self, fall: Fall) -> Fate
        ensures { result ≡ falls_by fall self }
    {
        if fall.ask == 1 {
            if fall.after {
                return Fate::After;
            }
            return Fate::Before;
        }
        match self.roll(1, 4096) {
            Some(0) => Fate::Before,
            Some(1) => Fate::After,
            _ => Fate::Stands,
        }
    }

    fn comes(self) -> Hand
        ensures { result ≡ hand_by self }
    {
        match self.roll(4096, 16) {
            Some(0) => Hand::Again(part(self.word, 1048576, 4096)),
            Some(1) => Hand::Mixed(mix(self.word), part(self.word, 1048576, 4096)),
            _ => Hand::Next,
        }
    }

    // The page that the guest fills, if it writes: in random play, if a part of the word is that much at least.
    fn fills(self, least: u32, pages: u32) -> Option<Write>
        ensures { result ≡ page_by (self.random && nat_le least (part_of 65536 16 self.word)) self.word pages }
    {
        if self.roll(65536, 16)? < least {
            return None;
        }
        let page = part(self.word, 1048576, 4096).checked_rem(pages)?;
        Some(Write {
            page,
            word: self.word,
        })
    }
}

impl Fall {
    // One ask less is left.
    #[inline]
    fn less(&mut self)
        ensures { self.new ≡ less self.old }
    {
        self.ask = self.ask.saturating_sub(1);
    }

    // Its host asks for something: what becomes of it.
    #[inline]
    fn ask(&mut self, chance: Chance) -> Fate
        ensures fate { result ≡ falls_by self.old chance }
        ensures left { self.new ≡ less self.old }
    {
        let fate = chance.falls(*self);
        self.less();
        fate
    }
}

impl Plan {
    // Nothing is planned.
    pub fn new() -> Plan
        ensures { result ≡ calm }
    {
        Plan::default()
    }

    // A host asks for something: what becomes of it. (zero and one are fields that a caller sets by name; here a host's is picked.)
    pub fn ask(&mut self, who: Who) -> Fate
        ensures fate { result ≡ fate_of who self.old }
        ensures left { self.new ≡ asked who self.old }
    {
        self.chance.draw();
        match who {
            Who::Zero => self.zero.ask(self.chance),
            Who::One => self.one.ask(self.chance),
        }
    }

    // What it asks for is that a letter be sent.
    pub fn post(&mut self) -> Post
        ensures post { result ≡ post_of self.old }
        ensures left { self.new ≡ posted self.old }
    {
        let lost = self.lose == 1 || self.chance.roll(4096, 16) == Some(0);
        let kept = self.chance.roll(65536, 16) != Some(0);
        self.lose = self.lose.saturating_sub(1);
        Post { lost, kept }
    }

    // What it asks for is a letter.
    pub fn hand(&mut self, who: Who) -> Hand
        ensures hand { result ≡ hand_of who self.old }
        ensures left { self.new ≡ handed who self.old }
    {
        if who == Who::One && self.again > 0 {
            self.again -= 1;
            return Hand::Again(0);
        }
        self.chance.comes()
    }

    // What a fall leaves of its pages.
    pub fn wreck(&self) -> Wreck
        ensures { result ≡ wreck_of self.now }
    {
        Wreck {
            word: self.chance.word ^ 0xdead,
            touched: self.chance.roll(1048576, 2) == Some(1),
        }
    }

    // What the guest writes after an ask.
    pub fn write_on(&self, pages: u32) -> Option<Write>
        ensures { result ≡ write_of self.now pages }
    {
        self.chance.fills(14, pages)
    }

    // Between rounds: whether somebody wants the guest to be moved.
    pub fn want(&mut self) -> bool
        ensures wish { result ≡ wish_of self.old }
        ensures left { self.new ≡ wished self.old }
    {
        self.chance.draw();
        std::mem::take(&mut self.wish) || self.chance.roll(4096, 4) == Some(0)
    }

    // Between rounds: what the guest writes.
    pub fn write_between(&mut self, pages: u32) -> Option<Write>
        ensures write { result ≡ writes_of self.old pages }
        ensures left { self.new ≡ wrote self.old }
    {
        self.write.take().or_else(|| self.chance.fills(8, pages))
    }
}
