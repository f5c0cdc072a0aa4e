// One host in memory that is lent to it: its pages, cells and letters.
#![tactic(auto)]

ghost use Rattle.std.specs.Prelude.{◌≡◌, ℕ, ◌+◌, ◌-◌, ◌%◌, ◌<◌, ◌≤◌, min, Bool, true, false, cond, List, [], ◌∷◌, length, take, replicate, nat_lt, is_some, option_copied, slice_get, slice_index_or, slice_set};
ghost use mathlib.Core.List.{Memᴰ};
ghost use Rattle.queue.specs.Queues.{letters_of, room_of};
ghost use Rattle.side.specs.Sides.{blank, size_of, host, Turns, kept_by, told_by, put_by, wrote_by, untouched_by, Fell, Linked, Noted, Posted, Nexts, mixed, roughened, Fresh, Remembers, Enters};

use queue::Queue;

// Memory for one host: its pages, which of them were written, a row for 64 letters or more, and room for 128 letters or more that the line keeps.
// With twice as much for letters less is moved about. Pages and flags are two slices, so that the guest's pages
// are copied and compared as one slice of words.
#[derive(Drop)]
pub struct Lent<'a> {
    pub pages: &'a mut [[u64; 64]],
    pub touched: &'a mut [bool],
    pub row: &'a mut [[u64; 72]],
    pub kept: &'a mut [[u64; 72]],
}

// What a rough line does to the letters that wait.
#[derive(Clone, Copy, Debug, PartialEq, Eq)]
pub enum Mix {
    // nothing
    Still,
    // the first is lost
    First,
    // the first and another change places
    Swap,
    // another becomes a copy of the first
    Double,
}

// What becomes of a letter that is sent.
#[derive(Clone, Copy, Debug, PartialEq, Eq)]
pub struct Post {
    pub lost: bool,
    pub kept: bool,
}

// What the pages of a host hold that has fallen, and whether they count as written.
#[derive(Clone, Copy, Debug, PartialEq, Eq)]
pub struct Wreck {
    pub word: u64,
    pub touched: bool,
}

#[derive(Drop)]
pub struct Side<'a> {
    pages: &'a mut [[u64; 64]],
    touched: &'a mut [bool],
    cells: [u64; 64],
    told: bool,
    row: Queue<'a>,
    kept: Queue<'a>,
}

// A letter more is kept; past 128 the oldest is forgotten.
fn remember(kept: &mut Queue, letter: &[u64; 72])
    ensures { Remembers kept.old letter.now kept.new }
{
    if kept.len() >= 128 {
        kept.drop_first();
    }
    let _ = kept.push(letter);
}

// A letter waits behind the others, unless 64 do; false where there is no room for 64.
fn enter(row: &mut Queue, letter: &[u64; 72]) -> bool
    ensures { Enters row.old letter.now result row.new }
{
    row.len() >= 64 || row.push(letter).is_ok()
}

// The first letter and the one at place i change places.
fn swap(row: &mut Queue, i: usize)
    requires { i < length (letters_of row.old) }
    ensures letters { letters_of row.new ≡ mixed Mix.Swap i (letters_of row.old) }
    ensures room { room_of row.new ≡ room_of row.old }
{
    let first = row.get(0).copied();
    let other = row.get(i).copied();
    if let (Some(first), Some(other)) = (first, other) {
        row.replace(0, &other);
        row.replace(i, &first);
    }
}

// The letter at place i becomes a copy of the first.
fn double(row: &mut Queue, i: usize)
    requires { i < length (letters_of row.old) }
    ensures letters { letters_of row.new ≡ mixed Mix.Double i (letters_of row.old) }
    ensures room { room_of row.new ≡ room_of row.old }
{
    if let Some(first) = row.get(0).copied() {
        row.replace(i, &first);
    }
}

#[tactic(auto, unfolding(crate::specs::Sides::size_of))]
impl<'a> Side<'a> {
    // A host on which nothing has happened: all pages are noughts.
    pub fn new(lent: Lent<'a>) -> Side<'a>
        ensures fresh { Fresh result }
        ensures size { 64 ≤ length lent.entry.row.now → 128 ≤ length lent.entry.kept.now → size_of result ≡ min (min (length lent.entry.pages.now) (length lent.entry.touched.now)) 4096 }
    {
        let Lent {
            pages,
            touched,
            row,
            kept,
        } = lent;
        pages.fill([0; 64]);
        touched.fill(false);
        Side {
            pages,
            touched,
            cells: [0; 64],
            told: false,
            row: Queue::new(row),
            kept: Queue::new(kept),
        }
    }

    // How many pages there is memory for.
    pub fn size(&self) -> usize
        ensures { result ≡ size_of self.now }
    {
        if self.row.room() < 64 {
            return 0;
        }
        if self.kept.room() < 128 {
            return 0;
        }
        self.pages.len().min(self.touched.len()).min(4096)
    }

    pub fn keep(&mut self, c: usize, x: u64)
        requires { c < 64 }
        ensures { Turns 0 self.old (kept_by c x) self.new }
    {
        self.cells[c] = x;
    }

    pub fn cell(&self, c: usize) -> u64
        requires { c < 64 }
        ensures { (n : ℕ) → result ≡ (host n self.now).cell c }
    {
        self.cells[c]
    }

    // Whether it was told to move its guest, which it is told once.
    pub fn hear(&mut self) -> bool
        ensures turns { Turns 0 self.old (told_by false) self.new }
        ensures was { result ≡ self.old.told }
    {
        std::mem::take(&mut self.told)
    }

    pub fn tell(&mut self)
        ensures { Turns 0 self.old (told_by true) self.new }
    {
        self.told = true;
    }

    pub fn put(&mut self, p: usize, words: &[u64; 64])
        requires { p < size_of self.old }
        ensures { Turns (p + 1) self.old (put_by p words.now) self.new }
    {
        self.pages[p] = *words;
    }

    // The guest writes a page.
    pub fn write(&mut self, p: usize, words: &[u64; 64])
        requires { p < size_of self.old }
        ensures { Turns (p + 1) self.old (wrote_by p words.now) self.new }
    {
        self.pages[p] = *words;
        self.touched[p] = true;
    }

    pub fn page(&self, p: usize) -> &[u64; 64]
        requires { p < size_of self.now }
        ensures { (n : ℕ) → p < n → result.now ≡ (host n self.now).page p }
    {
        let all = &*self.pages;
        &all[p]
    }

    // The first n pages.
    pub fn pages(&self, n: usize) -> &[[u64; 64]]
        requires { n ≤ size_of self.now }
        ensures is { result.now ≡ take n self.now.pages.now }
        ensures len { length result.now ≡ n }
    {
        let all = &*self.pages;
        &all[..n]
    }

    // Whether the guest wrote a page since this was last asked.
    pub fn untouch(&mut self, p: usize) -> bool
        requires { p < size_of self.old }
        ensures turns { Turns (p + 1) self.old (untouched_by p) self.new }
        ensures was { (n : ℕ) → p < n → result ≡ (host n self.old).touched p }
    {
        std::mem::replace(&mut self.touched[p], false)
    }

    // Its pages hold one word throughout, and what it was told is gone.
    pub fn fall(&mut self, wreck: Wreck)
        ensures { Fell wreck.word wreck.touched self.old self.new }
    {
        self.pages.fill([wreck.word; 64]);
        self.touched.fill(wreck.touched);
        self.told = false;
    }

    // A letter comes, or is lost; it is kept or not. False: it was lost.
    pub fn post(&mut self, letter: &[u64; 72], post: Post) -> bool
        ensures { Posted post.lost post.kept self.old letter.now result self.new }
    {
        self.note(letter, post.kept);
        !post.lost && enter(&mut self.row, letter)
    }

    fn note(&mut self, letter: &[u64; 72], keeps: bool)
        ensures { Noted keeps self.old letter.now self.new }
    {
        if keeps {
            remember(&mut self.kept, letter);
        }
    }

    // The first letter that waits, which is taken off.
    pub fn next(&mut self) -> Option<[u64; 72]>
        ensures { Nexts self.old result self.new }
    {
        self.row.pop()
    }

    // Whether a letter is kept.
    pub fn keeps(&self) -> bool
        ensures { result ≡ nat_lt 0 (length (letters_of self.now.kept)) }
    {
        self.kept.len() > 0
    }

    // The letter that is kept at place i, counted round from the oldest.
    pub fn again(&self, i: usize) -> Option<&[u64; 72]>
        ensures some { is_some result ≡ nat_lt 0 (length (letters_of self.now.kept)) }
        ensures letter { option_copied result ≡ slice_get (letters_of self.now.kept) (i % length (letters_of self.now.kept)) }
    {
        let i = i.checked_rem(self.kept.len())?;
        self.kept.get(i)
    }

    // The line is rough with the letters that wait; i, counted round, says with which.
    pub fn mix(&mut self, how: Mix, i: usize)
        ensures { Linked self.old (roughened how i (letters_of self.old.row)) (letters_of self.old.kept) self.new }
    {
        let Some(i) = i.checked_rem(self.row.len()) else {
            return;
        };
        match how {
            Mix::Still => {}
            Mix::First => self.row.drop_first(),
            Mix::Swap => swap(&mut self.row, i),
            Mix::Double => double(&mut self.row, i),
        }
    }
}
