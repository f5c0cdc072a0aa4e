// What a host is in the midst of.
use super::right::Right;
use pageset::PageSet;
use window::Window;

// An attempt to move the guest away, as far as it has come.
// window: pages that were sent and aren't acknowledged. unsent: pages that were never sent in this attempt.
// A pass looks at all pages in their order: cursor is the next; sent, how many it has sent; turns, how many turns it has had.
// prev: the turns of the pass before, if one came before.
#[derive(Clone, Copy)]
pub struct Transfer {
    pub attempt: u64,
    pub window: Window,
    pub unsent: PageSet,
    pub cursor: u32,
    pub sent: u32,
    pub turns: u32,
    pub prev: Option<u32>,
}

// The pages of an attempt are put; next: the place of the next one.
#[derive(Clone, Copy, Debug, PartialEq, Eq)]
pub struct Receiving {
    pub attempt: u64,
    pub next: u64,
}

// The guest runs here; wanted: this host knows that it's to be moved.
#[derive(Clone, Copy, Debug, PartialEq, Eq)]
pub struct Running {
    pub wanted: bool,
}

// It was stopped here, turns ago.
#[derive(Drop)]
pub struct Paused {
    pub transfer: Transfer,
    pub right: Right,
    pub turns: u32,
}

// The attempt is committed; mine: this host hasn't fallen since, so that its pages are the guest's memory still.
#[derive(Clone, Copy, Debug, PartialEq, Eq)]
pub struct Committed {
    pub attempt: u64,
    pub mine: bool,
    pub turns: u32,
}

#[derive(Drop)]
pub enum State {
    // it hasn't the guest
    Away,
    Receiving(Receiving),
    Running(Running),
    // the guest runs here and is copied
    Copying(Transfer),
    Paused(Paused),
    Committed(Committed),
}
