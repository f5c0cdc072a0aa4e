// Two hosts in memory and the guest that runs on one of them or on none: each thing that can be done to them, and nothing done unasked.
#![tactic(auto)]

ghost use Rattle.std.specs.Prelude.{◌≡◌, ℕ, ◌+◌, ◌-◌, ◌%◌, ◌<◌, ◌≤◌, min, Bool, true, false, ltb, List, [], length, if◌then◌else◌, nat_lt, is_some, Decides, option_copied, slice_get};
ghost use mathlib.Core.List.{Memᴰ};
ghost use Rattle.moving.specs.Hosts.{World, kept, heard, put_page, untouched, stopped, resumed, counted, AtStart, InTime, wrote, me, other, seated, renewed, roughened};
ghost use Rattle.std.specs.Fn.{FnOnceTakesAtMut, FnOnceReturnsAtMut};
ghost use Rattle.side.specs.declared.Side.{Side};
ghost use Rattle.who.specs.Numbers.{numb};
ghost use Rattle.side.specs.Sides.{size_of, Fresh};
ghost use Rattle.pair.specs.Worlds.{side_in, side_of, with_side, room, world_of, DroppedWith, FallenWith, PostedIn, NextIn, mixed_in, wished, Same, closed};

use side::{Mix, Post, Side, Wreck};
use who::Who;

// runs, lost, hurt and the other flags and counts: one field for each of `World`, so that each method is one definition of it.
#[derive(Drop)]
pub struct Pair<'a> {
    pages: u32,
    zero: Side<'a>,
    one: Side<'a>,
    truth: &'a mut [[u64; 64]],
    pub runs: bool,
    pub last: Who,
    pub lost: bool,
    hurt: bool,
    pub wish: bool,
    pub turn: Who,
    left: u32,
    pub fell: bool,
    rough: bool,
    busy: u32,
    calm: u32,
    still: u32,
}

// One writing more, counted up to 17.
fn busier(n: u32) -> u32
    ensures { result ≡ (if ltb n 17 then n + 1 else 17) }
{
    if n < 17 { n + 1 } else { 17 }
}

// One more of such rounds in a row, or none; it stops counting where a number ends.
fn counts(good: bool, n: u32) -> u32
    ensures { result ≡ (if good then min (n + 1) 4294967295 else 0) }
{
    if good { n.saturating_add(1) } else { 0 }
}

fn other(who: Who) -> Who
    ensures { numb result ≡ 1 - numb who }
{
    match who {
        Who::Zero => Who::One,
        Who::One => Who::Zero,
    }
}

// The side of that host.
fn pick<'x, 'a>(zero: &'x Side<'a>, one: &'x Side<'a>, who: Who) -> &'x Side<'a>
    ensures { result.now ≡ side_in who zero.now one.now }
{
    match who {
        Who::Zero => zero,
        Who::One => one,
    }
}

impl<'a> Pair<'a> {
    // All begins: the guest runs on host 0.
    pub fn new(pages: u32, zero: Side<'a>, one: Side<'a>, truth: &'a mut [[u64; 64]]) -> Pair<'a>
        requires zero { Fresh zero }
        requires one { Fresh one }
        requires some { (1 ≤ pages) × (pages ≤ 4096) }
        requires fits { (pages ≤ size_of zero) × ((pages ≤ size_of one) × (pages ≤ length truth.old)) }
        ensures start { AtStart (world_of result) }
        ensures pages { (world_of result).pages ≡ pages }
    {
        Pair {
            pages,
            zero,
            one,
            truth,
            runs: true,
            last: Who::Zero,
            lost: false,
            hurt: false,
            wish: false,
            turn: Who::Zero,
            left: 0,
            fell: false,
            rough: false,
            busy: 0,
            calm: 0,
            still: 0,
        }
    }

    // How many pages the guest has.
    pub fn count(&self) -> u32
        ensures { result ≡ room self.now }
    {
        let sides = self.zero.size().min(self.one.size());
        (self.pages as usize).min(sides.min(self.truth.len())) as u32
    }

    // Whether a round may end now.
    pub fn in_time(&self) -> bool
        ensures { result ≡ InTime (world_of self.now) }
    {
        self.still < 32 && (self.calm as u64) < 256 + 8 * (self.count() as u64)
    }

    // Does `f` to that host's side. (A method that gives the side itself, as a `&mut`, was tried: there is no proof of it.)
    fn at<R, F: FnOnce(&mut Side<'a>) -> R>(&mut self, who: Who, f: F) -> R
        requires { FnOnceTakesAtMut F.FnOnce f (side_of who self.old) }
        ensures { (s : Side) × FnOnceReturnsAtMut F.FnOnce f (side_of who self.old) result s × (self.new ≡ with_side who self.old s) }
    {
        match who {
            Who::Zero => f(&mut self.zero),
            Who::One => f(&mut self.one),
        }
    }

    // A host, to be read.
    fn side(&self, who: Who) -> &Side<'a>
        ensures { result.now ≡ side_of who self.now }
    {
        pick(&self.zero, &self.one, who)
    }

    // One ask less is left.
    pub fn ask(&mut self)
        requires { 0 < (world_of self.old).left }
        ensures { world_of self.new ≡ counted (world_of self.old) }
    {
        self.left -= 1;
    }

    pub fn keep(&mut self, c: usize, x: u64)
        requires { c < 64 }
        ensures { world_of self.new ≡ kept c x (world_of self.old) }
    {
        self.at(self.turn, |side| side.keep(c, x))
    }

    pub fn cell(&self, c: usize) -> u64
        requires { c < 64 }
        ensures { result ≡ (me (world_of self.now)).cell c }
    {
        self.side(self.turn).cell(c)
    }

    // Whether the host was told to move its guest, which it is told once.
    pub fn hear(&mut self) -> bool
        ensures after { world_of self.new ≡ heard (world_of self.old) }
        ensures value { result ≡ (me (world_of self.old)).told }
    {
        self.at(self.turn, |side| side.hear())
    }

    pub fn put(&mut self, p: usize, words: &[u64; 64])
        requires { p < room self.old }
        ensures { world_of self.new ≡ put_page p words.now (world_of self.old) }
    {
        self.at(self.turn, |side| side.put(p, words))
    }

    pub fn page(&self, p: usize) -> &[u64; 64]
        requires { p < room self.now }
        ensures { result.now ≡ (me (world_of self.now)).page p }
    {
        self.side(self.turn).page(p)
    }

    // Whether a page was written since this was last asked.
    pub fn untouch(&mut self, p: usize) -> bool
        requires { p < room self.old }
        ensures after { world_of self.new ≡ untouched p (world_of self.old) }
        ensures value { result ≡ (me (world_of self.old)).touched p }
    {
        self.at(self.turn, |side| side.untouch(p))
    }

    // The host whose turn it is falls.
    pub fn fall(&mut self, wreck: Wreck)
        ensures { FallenWith wreck.word wreck.touched (world_of self.old) (world_of self.new) }
    {
        self.drop_pages(wreck);
        let here = self.last == self.turn;
        self.lost = self.lost | (self.runs & here);
        self.runs = self.runs & !here;
        self.hurt = self.hurt | here;
        self.fell = true;
        self.rough = true;
    }

    fn drop_pages(&mut self, wreck: Wreck)
        ensures { DroppedWith wreck.word wreck.touched (world_of self.old) (world_of self.new) }
    {
        self.at(self.turn, |side| side.fall(wreck))
    }

    // The guest stops; its memory is what its pages are.
    pub fn stop(&mut self)
        ensures { world_of self.new ≡ stopped (world_of self.old) }
    {
        let n = self.count() as usize;
        let last = self.last;
        let truth = &mut self.truth[..n];
        truth.copy_from_slice(pick(&self.zero, &self.one, last).pages(n));
        self.runs = false;
        self.hurt = false;
    }

    // Whether all pages of the host whose turn it is are what the guest's memory was when it last stopped.
    pub fn is_same(&self) -> bool
        ensures { Decides result (Same (world_of self.now)) }
    {
        let n = self.count() as usize;
        self.side(self.turn).pages(n) == &self.truth[..n]
    }

    // It goes on here, and cell 0 is x.
    pub fn resume(&mut self, x: u64)
        ensures { world_of self.new ≡ resumed x (world_of self.old) }
    {
        self.keep(0, x);
        self.runs = true;
        self.wish = self.wish & (self.last == self.turn);
        self.last = self.turn;
        self.hurt = false;
    }

    // A letter to the other host. False: it was lost.
    pub fn post(&mut self, letter: &[u64; 72], post: Post) -> bool
        ensures { PostedIn post.lost post.kept (other (world_of self.old)) (world_of self.old) letter.now result (world_of self.new) }
    {
        let to = other(self.turn);
        self.at(to, |side| side.post(letter, post))
    }

    // The first letter that waits for the host whose turn it is, which is taken off.
    pub fn next(&mut self) -> Option<[u64; 72]>
        ensures { NextIn (world_of self.old).turn (world_of self.old) result (world_of self.new) }
    {
        self.at(self.turn, |side| side.next())
    }

    // The letter that is kept for it at place i, counted round from the oldest.
    pub fn again(&self, i: usize) -> Option<&[u64; 72]>
        ensures some { is_some result ≡ nat_lt 0 (length (me (world_of self.now)).old) }
        ensures letter { option_copied result ≡ slice_get (me (world_of self.now)).old (i % length (me (world_of self.now)).old) }
    {
        self.side(self.turn).again(i)
    }

    // Whether a letter is kept for host 1.
    pub fn keeps_for_one(&self) -> bool
        ensures { result ≡ nat_lt 0 (length ((world_of self.now).host 1).old) }
    {
        self.one.keeps()
    }

    // The letters that wait for it are mixed up.
    pub fn mix(&mut self, how: Mix, i: usize)
        ensures { world_of self.new ≡ mixed_in how i (world_of self.old).turn (world_of self.old) }
    {
        self.at(self.turn, |side| side.mix(how, i))
    }

    // The line was rough.
    pub fn roughen(&mut self)
        ensures { world_of self.new ≡ roughened (world_of self.old) }
    {
        self.rough = true;
    }

    // The guest writes a page where it runs.
    pub fn write(&mut self, p: usize, words: &[u64; 64])
        requires { p < room self.old }
        ensures { world_of self.new ≡ wrote p words.now (world_of self.old) }
    {
        self.busy = busier(self.busy);
        self.at(self.last, |side| side.write(p, words))
    }

    // Somebody wants it to be moved.
    pub fn want(&mut self)
        ensures { world_of self.new ≡ wished (world_of self.old) }
    {
        self.wish = true;
        self.at(self.last, |side| side.tell())
    }

    // It is that host's turn.
    pub fn seat(&mut self, who: Who)
        ensures { world_of self.new ≡ seated (numb who) (world_of self.old) }
    {
        self.turn = who;
        self.left = 256;
        self.fell = false;
    }

    // The host that has fallen begins anew.
    pub fn renew(&mut self)
        ensures { world_of self.new ≡ renewed (world_of self.old) }
    {
        self.left = 0;
        self.fell = false;
    }

    // Both had a turn.
    pub fn round(&mut self)
        ensures { world_of self.new ≡ closed (world_of self.old) }
    {
        let good = !self.rough & (self.busy <= 16);
        let wished = good & self.wish & !self.lost & !self.hurt;
        let stands = good & !self.runs & !self.lost & !self.hurt;
        self.calm = counts(wished, self.calm);
        self.still = counts(stands, self.still);
        self.left = 0;
        self.rough = false;
        self.busy = 0;
    }
}
