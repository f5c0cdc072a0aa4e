// The window of a transfer: the pages that were sent and are not acknowledged yet.
// Each page that is sent has the next place, 0, 1, 2, ..; a window holds the pages at the places base to base + len - 1.
#![tactic(auto)]

ghost use Rattle.std.specs.Prelude.{◌≡◌, ℕ, ◌+◌, ◌-◌, ◌^◌, ◌<◌, ◌≤◌, [], length, ◌==◌};
ghost use Rattle.window.specs.Pages.{most, Sound, slot, pushed, dropped};

use std::marker::Model;

// The most pages that a window holds: `most` in the contracts.
pub const CAPACITY: usize = 62;

// The first `len` of `pages` are its pages, and behind these are noughts: so that what contracts see of it tells all of it, and it can be copied.
#[derive(Clone, Copy)]
pub struct Window {
    pages: [u32; CAPACITY],
    len: u64,
    base: u64,
}

impl Model for Window {
    ghost use Rattle.window.specs.Pages.{Flying};

    ghost Value = { Flying };

    ghost use Rattle.std.specs.Prelude.{take};
    ghost use Rattle.window.specs.Padding.{WellKept, padded, padded_again};

    ghost view = { λ w. record { base = w.base; pages = take w.len w.pages } };

    ghost invariant = { WellKept };

    ghost inverse = { padded };

    ghost inverse_ok = { padded_again };
}

impl Window {
    // No page, at place 0. (`Sound` stands in what this and other functions ensure: a caller sees of a window its value alone.)
    pub fn new() -> Window
        ensures pages { result.pages ≡ [] }
        ensures base { result.base ≡ 0 }
        ensures sound { Sound result }
    {
        Window {
            pages: [0; CAPACITY],
            len: 0,
            base: 0,
        }
    }

    // The place of the first page.
    pub fn base(&self) -> u64
        ensures { result ≡ self.now.base }
    {
        self.base
    }

    // How many pages it holds.
    pub fn len(&self) -> u64
        ensures is { result ≡ length self.now.pages }
        ensures sound { Sound self.now }
    {
        self.len
    }

    pub fn is_empty(&self) -> bool
        ensures is { result ≡ (length self.now.pages == 0) }
        ensures sound { Sound self.now }
    {
        self.len == 0
    }

    pub fn is_full(&self) -> bool
        ensures { result ≡ (length self.now.pages == most) }
    {
        self.len == CAPACITY as u64
    }

    // One page more, at the end. Returns its place.
    pub fn push(&mut self, page: u32) -> u64
        requires room { length self.old.pages < most }
        requires fits { self.old.base + length self.old.pages + 1 < 2 ^ 64 }
        ensures place { result ≡ self.old.base + length self.old.pages }
        ensures is { self.new ≡ pushed page self.old }
        ensures sound { Sound self.new }
    {
        let place = self.base + self.len;
        self.pages[self.len as usize] = page;
        self.len += 1;
        place
    }

    // The first k pages leave.
    pub fn drop_first(&mut self, k: u64)
        requires there { k ≤ length self.old.pages }
        ensures is { self.new ≡ dropped k self.old }
        ensures sound { Sound self.new }
    {
        self.pages[..k as usize].fill(0);
        self.pages.rotate_left(k as usize);
        self.len -= k;
        self.base += k;
    }

    // The page at a place of the window.
    pub fn page_at(&self, place: u64) -> u32
        requires low { self.now.base ≤ place }
        requires high { place < self.now.base + length self.now.pages }
        ensures { result ≡ slot self.now (place - self.now.base) }
    {
        self.pages[(place - self.base) as usize]
    }
}

#[cfg(test)]
mod tests {
    use super::*;

    #[test]
    fn slides(rt: HostRuntime) {
        let mut w = Window::new();
        assert_eq!(rt; w.push(30), 0);
        assert_eq!(rt; w.push(31), 1);
        assert_eq!(rt; w.push(32), 2);
        w.drop_first(2);
        assert_eq!(rt; w.push(33), 3);
        assert_eq!(rt; w.base(), 2);
        assert_eq!(rt; w.len(), 2);
        assert_eq!(rt; w.page_at(2), 32);
        assert_eq!(rt; w.page_at(3), 33);
    }

    #[test]
    fn fills(rt: HostRuntime) {
        let mut w = Window::new();
        assert!(rt; w.is_empty() && !w.is_full());
        for page in 0..62 {
            w.push(page);
        }
        assert!(rt; w.is_full() && !w.is_empty());
        w.drop_first(62);
        assert!(rt; w.is_empty());
        assert_eq!(rt; w.base(), 62);
    }
}
