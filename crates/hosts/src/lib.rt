// Two hosts in memory, their guest and the line between them, which do what they are asked for, and beside that what a plan says.
#![tactic(auto)]

ghost use Rattle.std.specs.Result.{result_err};
ghost use Rattle.std.specs.Prelude.{◌≡◌, ℕ, ◌<◌, ◌≤◌, Bool, true, false, cond, not, ◌&&◌, T, length, is_ok, Some, None, Ok, Err, MatchOption, MatchResult, nat_lt};
ghost use Rattle.moving.specs.Hosts.{World, Does, Posts, Gets, Between, AtStart, InTime, Sends, me, kept, heard, put_page, untouched, stopped, resumed, counted, seated, renewed, roughened, rounded};
ghost use Rattle.plan.specs.declared.Plan.{Plan};
ghost use Rattle.hosts.specs.Stories.{Story, story_of, noted};
ghost use Rattle.pair.specs.Worlds.{world_of as pairWorld, closed};
ghost use Rattle.plan.specs.Plans.{post_of, posted, hand_of, handed};
ghost use Rattle.hosts.specs.Makes.{reason, guest_shown, refusal_of, memory_of, row_of, kept_of, Made, guest_of, repeated};
ghost use Rattle.hosts.specs.Follows.{world_of, PlannedAsBefore, event, Fell, fills, Follows, Plain, Tells, resume_told, Resumes, lose_told, SentAs, sent_by, HandsNext, Hands, Hears, FallsHearing, wishes, BetweenAs, Began, Ended};

pub mod log;
pub mod memory;

use log::{Event, Log, What};
use moving::{Down, Place, Sky};
use pair::Pair;
use plan::{Fate, Hand, Plan, Write};
pub use side::Lent;
use side::Side;
use std::error::Error;
use std::fmt;
use who::Who;

// Why two hosts can't be made.
#[derive(Clone, Copy, Debug, PartialEq, Eq)]
pub enum Refused {
    // a guest without pages
    NoPages,
    // or with more than 4,096
    ManyPages,
    // not as much memory as there are pages
    ShortMemory,
    // no room for 64 letters that wait
    ShortRow,
    // or for 128 that are kept
    ShortKept,
}

impl fmt::Display for Refused {
    ghost output = { λ refused. Some (reason refused) };

    fn fmt<W: fmt::Write>(&self, f: &mut fmt::Formatter<W>) -> fmt::Result {
        f.write_str(match self {
            Refused::NoPages => "the guest has no pages",
            Refused::ManyPages => "the guest has more than 4096 pages",
            Refused::ShortMemory => "there is less memory than pages",
            Refused::ShortRow => "there is no room for 64 letters that wait",
            Refused::ShortKept => "there is no room for 128 letters that are kept",
        })
    }
}

impl Error for Refused {}

// Where the guest is: it runs there; it was stopped there; it was lost there.
#[derive(Clone, Copy, Debug, PartialEq, Eq)]
pub enum Guest {
    Runs(Who),
    Stands(Who),
    Lost(Who),
}

impl fmt::Display for Guest {
    ghost output = { λ guest. Some (guest_shown guest) };

    fn fmt<W: fmt::Write>(&self, f: &mut fmt::Formatter<W>) -> fmt::Result {
        match self {
            Guest::Runs(host) => write!(f, "runs {host}"),
            Guest::Stands(host) => write!(f, "stands {host}"),
            Guest::Lost(host) => write!(f, "lost {host}"),
        }
    }
}

// Whether there may be so many pages in so much memory.
fn check(pages: u32, memory: usize, row: usize, kept: usize) -> Result<(), Refused>
    ensures { result_err result ≡ refusal_of pages memory row kept }
{
    if pages == 0 {
        return Err(Refused::NoPages);
    }
    if pages > 4096 {
        return Err(Refused::ManyPages);
    }
    if memory < pages as usize {
        return Err(Refused::ShortMemory);
    }
    if row < 64 {
        return Err(Refused::ShortRow);
    }
    if kept < 128 {
        return Err(Refused::ShortKept);
    }
    Ok(())
}

#[derive(Drop)]
pub struct Hosts<'a> {
    pair: Pair<'a>,
    pub plan: Plan,
    pub log: Log<'a>,
}

impl<'a> Hosts<'a> {
    // Two hosts and a guest with so many pages, which runs on host 0; all pages are noughts, and nothing is planned.
    pub fn new(
        pages: u32,
        zero: Lent<'a>,
        one: Lent<'a>,
        truth: &'a mut [[u64; 64]],
        events: &'a mut [Event],
    ) -> Result<Hosts<'a>, Refused>
        ensures made { MatchResult result (λ h. Made pages (length events.old) h) (λ e. Some e ≡ refusal_of pages (memory_of zero.entry one.entry (length truth.old)) (row_of zero.entry one.entry) (kept_of zero.entry one.entry)) }
        ensures unless { refusal_of pages (memory_of zero.entry one.entry (length truth.old)) (row_of zero.entry one.entry) (kept_of zero.entry one.entry) ≡ None → is_ok result ≡ true }
    {
        let memory = zero
            .pages
            .len()
            .min(zero.touched.len())
            .min(one.pages.len())
            .min(one.touched.len())
            .min(truth.len());
        let row = zero.row.len().min(one.row.len());
        let kept = zero.kept.len().min(one.kept.len());
        check(pages, memory, row, kept)?;
        Ok(Hosts {
            pair: Pair::new(pages, Side::new(zero), Side::new(one), truth),
            plan: Plan::new(),
            log: Log::new(events),
        })
    }

    // Where the guest is.
    pub fn guest(&self) -> Guest
        ensures { result ≡ guest_of (world_of self.now) }
    {
        if self.pair.runs {
            return Guest::Runs(self.pair.last);
        }
        if self.pair.lost {
            return Guest::Lost(self.pair.last);
        }
        Guest::Stands(self.pair.last)
    }

    // Whether somebody may want the guest to be moved: it runs, and nobody does yet.
    pub fn may_want(&self) -> bool
        ensures { result ≡ ((world_of self.now).runs && not (world_of self.now).wish) }
    {
        self.pair.runs && !self.pair.wish
    }

    // The oldest letter that is kept for host 1 is to come there again, if there is one.
    pub fn repeat(&mut self)
        ensures same { (world_of self.new ≡ world_of self.old) × (story_of self.new.log ≡ story_of self.old.log) }
        ensures plan { self.new.plan ≡ repeated (nat_lt 0 (length ((world_of self.old).host 1).old)) self.old.plan }
    {
        if self.pair.keeps_for_one() {
            self.plan.again = self.plan.again.saturating_add(1);
        }
    }

    // Whether a round may end: the guest hasn't stood still too long, and was moved in time.
    pub fn in_time(&self) -> bool
        ensures { result ≡ InTime (world_of self.now) }
    {
        self.pair.in_time()
    }

    // The end of a round, also of one that should not be; counts go up to 2^32 - 1.
    pub fn close(&mut self)
        ensures world { world_of self.new ≡ closed (world_of self.old) }
        ensures same { PlannedAsBefore self.old self.new }
    {
        self.pair.round();
    }

    // The host whose turn it is falls.
    fn fall(&mut self)
        ensures { Fell (world_of self.old) self.old.plan (story_of self.old.log) self.new }
    {
        let host = self.pair.turn;
        let lost = self.pair.runs & (self.pair.last == host);
        let wreck = self.plan.wreck();
        self.pair.fall(wreck);
        self.log.note(Event {
            what: What::Fall,
            host,
        });
        if lost {
            self.log.note(Event {
                what: What::Lost,
                host,
            });
        }
    }

    // Something is asked. True: the host will fall when it's done. (Each ask is `begin`, its deed and `end`. As one function over a closure its contract
    // would have to tell a fall before the deed from one after it, with the hosts in between for each.)
    fn begin(&mut self) -> Result<bool, Down>
        requires { 0 < (world_of self.old).left }
        ensures { MatchResult result (λ due. Began self.old due self.new) (λ _. (d : World) (p : Plan) (s : Story) → Follows self.old d p s false self.new) }
    {
        let host = self.pair.turn;
        let fell = self.pair.fell;
        self.pair.ask();
        if fell {
            return Err(Down);
        }
        match self.plan.ask(host) {
            Fate::Before => {
                self.fall();
                Err(Down)
            }
            Fate::After => Ok(true),
            Fate::Stands => Ok(false),
        }
    }

    // It's done.
    fn end(&mut self, due: bool) -> Result<(), Down>
        ensures { Ended due self.old (is_ok result) self.new }
    {
        if due {
            self.fall();
            return Err(Down);
        }
        let write = self.plan.write_on(self.pair.count());
        self.fill(write);
        Ok(())
    }

    // The guest fills a page.
    fn fill(&mut self, write: Option<Write>)
        ensures world { world_of self.new ≡ fills write (world_of self.old) }
        ensures same { PlannedAsBefore self.old self.new }
    {
        let Some(write) = write else {
            return;
        };
        if self.pair.runs && write.page < self.pair.count() {
            let words = [write.word; 64];
            self.pair.write(write.page as usize, &words);
        }
    }

    // That happened to the host whose turn it is.
    fn tell(&mut self, what: What)
        ensures same { (world_of self.new ≡ world_of self.old) × (self.new.plan ≡ self.old.plan) }
        ensures story { story_of self.new.log ≡ noted (event what (world_of self.old)) (story_of self.old.log) }
    {
        let host = self.pair.turn;
        self.log.note(Event { what, host });
    }

    // The guest was resumed, and its memory was the same as at the stop, or it's wrong.
    fn tell_resumed(&mut self, same: bool)
        ensures same { (world_of self.new ≡ world_of self.old) × (self.new.plan ≡ self.old.plan) }
        ensures story { story_of self.new.log ≡ resume_told same (world_of self.old) (story_of self.old.log) }
    {
        self.tell(What::Resume);
        if !same {
            self.tell(What::Wrong);
        }
    }

    // A letter to the other host.
    fn post(&mut self, letter: &[u64; 72])
        ensures sends { Sends (world_of self.old) letter.now (world_of self.new) }
        ensures is { 0 < (world_of self.old).pages → world_of self.new ≡ sent_by (post_of self.old.plan) letter.now (world_of self.old) }
        ensures plan { self.new.plan ≡ posted self.old.plan }
        ensures story { 0 < (world_of self.old).pages → story_of self.new.log ≡ lose_told (post_of self.old.plan).lost (world_of self.old) (story_of self.old.log) }
    {
        let post = self.plan.post();
        if !self.pair.post(letter, post) {
            self.lose();
        }
    }

    // A letter of the host whose turn it is was lost on its way.
    fn lose(&mut self)
        ensures world { world_of self.new ≡ roughened (world_of self.old) }
        ensures plan { self.new.plan ≡ self.old.plan }
        ensures story { story_of self.new.log ≡ noted (event What.Lose (world_of self.old)) (story_of self.old.log) }
    {
        self.pair.roughen();
        self.tell(What::Lose);
    }

    // A letter for the host whose turn it is, if it gets one; whether it does. (It is put where it's asked for: as an option it would be moved about,
    // 584 bytes at each step, also where there is none.)
    fn hand(&mut self, into: &mut [u64]) -> bool
        requires { length into.old ≡ 72 }
        ensures hands { Hands (hand_of self.old.pair.turn self.old.plan) (world_of self.old) result into.new (world_of self.new) }
        ensures plan { self.new.plan ≡ handed self.old.pair.turn self.old.plan }
        ensures story { story_of self.new.log ≡ story_of self.old.log }
    {
        match self.plan.hand(self.pair.turn) {
            Hand::Next => next(&mut self.pair, into),
            Hand::Again(i) => again(&mut self.pair, i, into),
            Hand::Mixed(how, i) => {
                self.pair.mix(how, i as usize);
                self.pair.roughen();
                false
            }
        }
    }

    // Somebody wants the guest to be moved.
    fn wish(&mut self, wants: bool)
        ensures world { world_of self.new ≡ wishes wants (world_of self.old) }
        ensures same { PlannedAsBefore self.old self.new }
    {
        if wants && self.pair.runs && !self.pair.wish {
            self.pair.want();
        }
    }
}

// The next letter for the host whose turn it is, if one waits.
#[tactic(auto, using(crate::proofs::Hands::next_some, crate::proofs::Hands::next_none))]
fn next(pair: &mut Pair, into: &mut [u64]) -> bool
    requires { length into.old ≡ 72 }
    ensures { HandsNext (pairWorld pair.old) result into.new (pairWorld pair.new) }
{
    match pair.next() {
        Some(letter) => {
            into.copy_from_slice(&letter);
            true
        }
        None => false,
    }
}

// The letter that is kept for the host whose turn it is at place i; the next where none is.
#[tactic(auto, using(crate::proofs::Hands::again_some, crate::proofs::Hands::again_next))]
fn again(pair: &mut Pair, i: u32, into: &mut [u64]) -> bool
    requires { length into.old ≡ 72 }
    ensures { Hands (Hand.Again i) (pairWorld pair.old) result into.new (pairWorld pair.new) }
{
    let Some(letter) = pair.again(i as usize) else {
        return next(pair, into);
    };
    into.copy_from_slice(letter);
    pair.roughen();
    true
}

// As many words as there are, as an array.
fn whole<const N: usize>(words: &[u64]) -> &[u64; N]
    requires { length words.now ≡ N }
    ensures { result.now ≡ words.now }
{
    words.as_array().unwrap()
}

// What a host may ask: what the trait says of it, and what is planned for it.
impl<'a> Place for Hosts<'a> {
    ghost world = { world_of };

    fn pages(&self) -> u32 {
        self.pair.count()
    }

    fn page(&mut self, p: u32, into: &mut [u64]) -> Result<(), Down>
        requires left { 0 < (world_of self.old).left }
        requires inside { p < (world_of self.old).pages }
        requires long { length into.old ≡ 64 }
        ensures does { (Does (world_of self.old) (world_of self.old) (is_ok result) (world_of self.new)) × ((is_ok result ≡ true → into.new ≡ (me (world_of self.old)).page p)) }
        ensures planned { Plain self.old (world_of self.old) (is_ok result) self.new }
    {
        let due = self.begin()?;
        into.copy_from_slice(self.pair.page(p as usize));
        self.end(due)
    }

    fn put(&mut self, p: u32, words: &[u64]) -> Result<(), Down>
        requires left { 0 < (world_of self.old).left }
        requires inside { p < (world_of self.old).pages }
        requires long { length words.now ≡ 64 }
        ensures does { Does (world_of self.old) (put_page p words.now (world_of self.old)) (is_ok result) (world_of self.new) }
        ensures planned { Plain self.old (put_page p words.now (world_of self.old)) (is_ok result) self.new }
    {
        let words = whole(words);
        let due = self.begin()?;
        self.pair.put(p as usize, words);
        self.end(due)
    }

    fn touched(&mut self, p: u32) -> Result<bool, Down>
        requires left { 0 < (world_of self.old).left }
        requires inside { p < (world_of self.old).pages }
        ensures does { (Does (world_of self.old) (untouched p (world_of self.old)) (is_ok result) (world_of self.new)) × ((is_ok result ≡ true → result ≡ Ok ((me (world_of self.old)).touched p))) }
        ensures planned { Plain self.old (untouched p (world_of self.old)) (is_ok result) self.new }
    {
        let due = self.begin()?;
        let value = self.pair.untouch(p as usize);
        self.end(due)?;
        Ok(value)
    }

    fn stop(&mut self) -> Result<(), Down>
        requires { 0 < (world_of self.old).left }
        ensures does { Does (world_of self.old) (stopped (world_of self.old)) (is_ok result) (world_of self.new) }
        ensures planned { Tells What.Stop self.old (stopped (world_of self.old)) (is_ok result) self.new }
    {
        let due = self.begin()?;
        self.pair.stop();
        self.tell(What::Stop);
        self.end(due)
    }

    fn resume(&mut self, x: u64) -> Result<(), Down>
        requires { 0 < (world_of self.old).left }
        ensures does { Does (world_of self.old) (resumed x (world_of self.old)) (is_ok result) (world_of self.new) }
        ensures planned { Resumes self.old (resumed x (world_of self.old)) (is_ok result) self.new }
    {
        let due = self.begin()?;
        let same = self.pair.is_same();
        self.pair.resume(x);
        self.tell_resumed(same);
        self.end(due)
    }

    fn told(&mut self) -> Result<bool, Down>
        requires { 0 < (world_of self.old).left }
        ensures does { (Does (world_of self.old) (heard (world_of self.old)) (is_ok result) (world_of self.new)) × ((is_ok result ≡ true → result ≡ Ok (me (world_of self.old)).told)) }
        ensures planned { Plain self.old (heard (world_of self.old)) (is_ok result) self.new }
    {
        let due = self.begin()?;
        let value = self.pair.hear();
        self.end(due)?;
        Ok(value)
    }

    fn get(&mut self, c: u32) -> Result<u64, Down>
        requires left { 0 < (world_of self.old).left }
        requires cell { c < 64 }
        ensures does { (Does (world_of self.old) (world_of self.old) (is_ok result) (world_of self.new)) × ((is_ok result ≡ true → result ≡ Ok ((me (world_of self.old)).cell c))) }
        ensures planned { Plain self.old (world_of self.old) (is_ok result) self.new }
    {
        let due = self.begin()?;
        let value = self.pair.cell(c as usize);
        self.end(due)?;
        Ok(value)
    }

    fn keep(&mut self, c: u32, x: u64) -> Result<(), Down>
        requires left { 0 < (world_of self.old).left }
        requires cell { c < 64 }
        ensures does { Does (world_of self.old) (kept c x (world_of self.old)) (is_ok result) (world_of self.new) }
        ensures planned { Plain self.old (kept c x (world_of self.old)) (is_ok result) self.new }
    {
        let due = self.begin()?;
        self.pair.keep(c as usize, x);
        self.end(due)
    }

    fn send(&mut self, letter: &[u64]) -> Result<(), Down>
        requires left { 0 < (world_of self.old).left }
        requires long { length letter.now ≡ 72 }
        ensures posts { Posts (world_of self.old) letter.now (is_ok result) (world_of self.new) }
        ensures planned { 0 < (world_of self.old).pages → SentAs self.old letter.now (is_ok result) self.new }
    {
        let letter = whole(letter);
        let due = self.begin()?;
        self.post(letter);
        self.end(due)
    }

    fn recv(&mut self, into: &mut [u64]) -> Result<bool, Down>
        requires left { 0 < (world_of self.old).left }
        requires long { length into.old ≡ 72 }
        ensures gets { Gets (world_of self.old) result into.new (world_of self.new) }
        ensures planned { MatchResult result (λ b. Hears self.old b into.new true self.new) (λ _. FallsHearing self.old self.new) }
    {
        let due = self.begin()?;
        let got = self.hand(into);
        self.end(due)?;
        Ok(got)
    }
}

// What no host sees: what the trait says of it, and what else is so.
impl<'a> Sky for Hosts<'a> {
    fn seat(&mut self, i: u32) -> bool
        requires { (world_of self.old).fell ≡ false }
        ensures seated { T result → world_of self.new ≡ seated i (world_of self.old) }
        ensures two { result ≡ nat_lt i 2 }
        ensures stays { result ≡ false → world_of self.new ≡ world_of self.old }
        ensures same { PlannedAsBefore self.old self.new }
    {
        let Ok(who) = Who::try_from(i) else {
            return false;
        };
        self.pair.seat(who);
        true
    }

    fn renew(&mut self)
        requires { (world_of self.old).fell ≡ true }
        ensures renewed { world_of self.new ≡ renewed (world_of self.old) }
        ensures same { PlannedAsBefore self.old self.new }
    {
        self.pair.renew();
    }

    fn between(&mut self)
        ensures between { Between (world_of self.old) (world_of self.new) }
        ensures planned { BetweenAs self.old self.new }
    {
        let wants = self.plan.want();
        self.wish(wants);
        let write = self.plan.write_between(self.pair.count());
        self.fill(write);
    }

    fn round(&mut self)
        requires { T (InTime (world_of self.old)) }
        ensures rounded { world_of self.new ≡ rounded (world_of self.old) }
        ensures same { PlannedAsBefore self.old self.new }
    {
        self.pair.round();
    }
}
