// A queue of letters, 72 words each, in memory that is lent to it.
#![tactic(auto)]

ghost use Rattle.std.specs.Prelude.{◌≡◌, ℕ, ◌+◌, ◌<◌, ◌≤◌, Bool, true, false, cond, List, [], ◌∷◌, ◌++◌, length, take, drop, is_ok, option_copied, slice_get, slice_set};
ghost use Rattle.moving.specs.Hosts.{rest'};
ghost use Rattle.queue.specs.Queues.{letters_of, room_of, Pushed};

// The letters stand in `slots` from `head` on. A letter is taken off by moving `head`, so that only every so often all are shifted to the front.
// The memory is lent, of whatever length, so it's a slice with two numbers: an `ArrayVec` owns memory of one size.
#[derive(Drop)]
pub struct Queue<'a> {
    slots: &'a mut [[u64; 72]],
    head: usize,
    count: usize,
}

// There is no room for one letter more.
#[derive(Clone, Copy, Debug, PartialEq, Eq)]
pub struct Full;

impl<'a> Queue<'a> {
    // An empty queue.
    #[tactic(auto, unfolding(crate::specs::Queues::letters_of))]
    pub fn new(slots: &'a mut [[u64; 72]]) -> Queue<'a>
        ensures letters { letters_of result ≡ [] }
        ensures room { room_of result ≡ length slots.old }
    {
        Queue {
            slots,
            head: 0,
            count: 0,
        }
    }

    // How many letters there is memory for.
    pub fn room(&self) -> usize
        ensures { result ≡ room_of self.now }
    {
        self.slots.len()
    }

    // How many letters wait.
    #[tactic(auto, using(crate::proofs::Rows::row_length), unfolding(crate::specs::Queues::letters_of))]
    pub fn len(&self) -> usize
        ensures { result ≡ length (letters_of self.now) }
    {
        let rest = self.slots.len().saturating_sub(self.head);
        self.count.min(rest)
    }

    // A letter at the end, if there is room for it. (That `room` stays is said by itself, here and below: it's another part of the struct.)
    pub fn push(&mut self, letter: &[u64; 72]) -> Result<(), Full>
        ensures { Pushed self.old letter.now (is_ok result) self.new }
    {
        let n = self.len();
        if n >= self.slots.len() {
            return Err(Full);
        }
        self.gather(n);
        let at = self.head + n;
        self.slots[at].copy_from_slice(letter);
        self.count = n + 1;
        Ok(())
    }

    // The same letters, with room behind them.
    #[tactic(auto, using(crate::proofs::Rows::row_length, crate::proofs::Rows::row_again, crate::proofs::Rows::row_moved), unfolding(crate::specs::Queues::letters_of))]
    fn gather(&mut self, n: usize)
        requires { (n ≡ length (letters_of self.old)) × (n < room_of self.old) }
        ensures letters { take n (drop self.new.head self.new.slots.now) ≡ letters_of self.old }
        ensures room { (room_of self.new ≡ room_of self.old) × (self.new.head + n < room_of self.new) }
    {
        let h = self.head.min(self.slots.len());
        if h + n < self.slots.len() {
            return;
        }
        self.slots.copy_within(h..h + n, 0);
        self.head = 0;
    }

    // The first letter, which is taken off.
    pub fn pop(&mut self) -> Option<[u64; 72]>
        ensures first { result ≡ slice_get (letters_of self.old) 0 }
        ensures rest { letters_of self.new ≡ rest' (letters_of self.old) }
        ensures room { room_of self.new ≡ room_of self.old }
    {
        let letter = self.get(0).copied();
        self.drop_first();
        letter
    }

    // Without its first letter.
    #[tactic(auto, using(crate::proofs::Rows::row_length, crate::proofs::Rows::row_rest, crate::proofs::Rows::none_rest), unfolding(crate::specs::Queues::letters_of))]
    pub fn drop_first(&mut self)
        ensures rest { letters_of self.new ≡ rest' (letters_of self.old) }
        ensures room { room_of self.new ≡ room_of self.old }
    {
        if self.len() == 0 {
            return;
        }
        self.head += 1;
        self.count -= 1;
    }

    // The letter at place i.
    #[tactic(auto, using(crate::proofs::Rows::row_length), unfolding(crate::specs::Queues::letters_of))]
    pub fn get(&self, i: usize) -> Option<&[u64; 72]>
        ensures { option_copied result ≡ slice_get (letters_of self.now) i }
    {
        if i >= self.len() {
            return None;
        }
        let all = &*self.slots;
        Some(&all[self.head + i])
    }

    // Another letter stands at place i, if there is such a place.
    #[tactic(auto, using(crate::proofs::Rows::row_length, crate::proofs::Rows::row_set), unfolding(crate::specs::Queues::letters_of))]
    pub fn replace(&mut self, i: usize, letter: &[u64; 72])
        ensures letters { letters_of self.new ≡ slice_set (letters_of self.old) i letter.now }
        ensures room { room_of self.new ≡ room_of self.old }
    {
        if i >= self.len() {
            return;
        }
        let at = self.head + i;
        self.slots[at] = *letter;
    }
}
