// Memory for two hosts, to be lent to them.
ghost use Rattle.std.specs.Prelude.{◌≡◌, length, min, Some, None, is_ok, true, MatchResult};
ghost use Rattle.hosts.specs.Makes.{refusal_of, Made};

use super::{Hosts, Lent, Refused};
use crate::log::{Event, What};
use who::Who;

// Memory for one host, with twice as much for letters as it needs: what is lent as a `Lent`.
#[derive(Drop)]
pub struct Room<const PAGES: usize> {
    pub pages: [[u64; 64]; PAGES],
    pub touched: [bool; PAGES],
    pub row: [[u64; 72]; 128],
    pub kept: [[u64; 72]; 256],
}

// Memory for two hosts and a guest with up to so many pages, and for all that is told of a round: it has 512 asks, and of each are told
// four things at most. `empty_memory!` makes it.
#[derive(Drop)]
pub struct Memory<const PAGES: usize> {
    pub zero: Room<PAGES>,
    pub one: Room<PAGES>,
    pub truth: [[u64; 64]; PAGES],
    pub events: [Event; 2048],
}

pub const NOTHING: Event = Event {
    what: What::Stop,
    host: Who::Zero,
};

// A `Memory` of so many pages, made where it is to stand. (Both rooms are written out: a macro that calls a macro would be no plainer.) What a function gives is copied, and a stack has no room for two of 4,096 pages.
#[macro_export]
macro_rules! empty_memory {
    ($pages:expr) => {
        $crate::memory::Memory {
            zero: $crate::memory::Room {
                pages: [[0; 64]; $pages],
                touched: [false; $pages],
                row: [[0; 72]; 128],
                kept: [[0; 72]; 256],
            },
            one: $crate::memory::Room {
                pages: [[0; 64]; $pages],
                touched: [false; $pages],
                row: [[0; 72]; 128],
                kept: [[0; 72]; 256],
            },
            truth: [[0; 64]; $pages],
            events: [$crate::memory::NOTHING; 2048],
        }
    };
}

impl<const PAGES: usize> Room<PAGES> {
    fn lend(&mut self) -> Lent<'_>
        ensures pages { (length result.pages.now ≡ PAGES) × (length result.touched.now ≡ PAGES) }
        ensures letters { (length result.row.now ≡ 128) × (length result.kept.now ≡ 256) }
    {
        let Room {
            pages,
            touched,
            row,
            kept,
        } = self;
        Lent {
            pages,
            touched,
            row,
            kept,
        }
    }
}

impl<const PAGES: usize> Memory<PAGES> {
    // Two hosts in it, and a guest with so many pages.
    pub fn hosts(&mut self, pages: u32) -> Result<Hosts<'_>, Refused>
        ensures made { MatchResult result (λ h. Made pages 2048 h) (λ e. Some e ≡ refusal_of pages PAGES 128 256) }
        ensures unless { refusal_of pages PAGES 128 256 ≡ None → is_ok result ≡ true }
    {
        let Memory {
            zero,
            one,
            truth,
            events,
        } = self;
        Hosts::new(pages, zero.lend(), one.lend(), truth, events)
    }
}
