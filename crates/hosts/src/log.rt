// What happened, in the order in which it did, in memory that is lent; what there is no room for is counted.
ghost use Rattle.std.specs.Prelude.{◌≡◌, Some, [], length, min, take};
ghost use Rattle.hosts.specs.Stories.{story_of, noted, printed};

use std::fmt;
use who::Who;

#[derive(Clone, Copy, Debug, PartialEq, Eq)]
pub enum What {
    // the guest was stopped
    Stop,
    // it was resumed
    Resume,
    // and its memory wasn't what it was at the stop
    Wrong,
    // a letter of the host was lost on its way
    Lose,
    // the host fell
    Fall,
    // and the guest with it
    Lost,
}

#[derive(Clone, Copy, Debug, PartialEq, Eq)]
pub struct Event {
    pub what: What,
    pub host: Who,
}

// What happened, and to which host; that the guest was resumed wrongly or lost follows what happened to its host, and is printed without it.
impl fmt::Display for Event {
    ghost output = { λ event. Some (printed event.what event.host) };

    fn fmt<W: fmt::Write>(&self, f: &mut fmt::Formatter<W>) -> fmt::Result {
        match self.what {
            What::Stop => write!(f, "stop {}", self.host),
            What::Resume => write!(f, "resume {}", self.host),
            What::Wrong => write!(f, "wrong"),
            What::Lose => write!(f, "lose {}", self.host),
            What::Fall => write!(f, "fall {}", self.host),
            What::Lost => write!(f, "lost"),
        }
    }
}

// The memory is lent, of whatever length, so it's a slice with how much of it is in use: an `ArrayVec` owns memory of one size.
#[derive(Drop)]
pub struct Log<'a> {
    events: &'a mut [Event],
    count: usize,
    missed: u64,
}

impl<'a> Log<'a> {
    pub fn new(events: &'a mut [Event]) -> Log<'a>
        ensures empty { ((story_of result).events ≡ []) × ((story_of result).missed ≡ 0) }
        ensures room { (story_of result).room ≡ length events.old }
    {
        Log {
            events,
            count: 0,
            missed: 0,
        }
    }

    pub fn note(&mut self, event: Event)
        ensures { story_of self.new ≡ noted event (story_of self.old) }
    {
        let n = self.count;
        if n < self.events.len() {
            self.events[n] = event;
            self.count = n + 1;
            return;
        }
        self.missed = self.missed.saturating_add(1);
    }

    // What happened, in the order in which it did.
    pub fn events(&self) -> &[Event]
        ensures { result.now ≡ (story_of self.now).events }
    {
        let told = self.count.min(self.events.len());
        &self.events[..told]
    }

    // How many things happened for which there was no room.
    pub fn missed(&self) -> u64
        ensures { result ≡ (story_of self.now).missed }
    {
        self.missed
    }

    // Nothing has happened yet.
    pub fn clear(&mut self)
        ensures empty { ((story_of self.new).events ≡ []) × ((story_of self.new).missed ≡ 0) }
        ensures room { (story_of self.new).room ≡ (story_of self.old).room }
    {
        self.count = 0;
        self.missed = 0;
    }
}
