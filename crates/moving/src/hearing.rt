// What each letter makes of a node.
ghost use Rattle.std.specs.Prelude.{◌≡◌, ℕ, ◌+◌, ◌-◌, ◌*◌, ◌<◌, ◌≤◌, Bool, true, false, List, [], ◌∷◌, length, is_ok, IfOk, Some, None, OnOk};
ghost use Rattle.letter.specs.Words.{spelt};
ghost use Rattle.pageset.specs.Count.{bit};
ghost use Rattle.moving.specs.Used.{Soon, Used};
ghost use Rattle.moving.specs.Calm.{row_here, Still, Hearing, HeardAll};
ghost use Rattle.moving.specs.Model.{Tidy, moving, begins, probed, received, taken, refused, refused_in, acked, acked_in, gone_in, on_state, heeded};
ghost use Rattle.moving.specs.Acted.{Heard, OneHeard};
ghost use Rattle.moving.specs.Invariant.{Ready, Keeps};

use super::right::Right;
use super::state::{Committed, Paused, Receiving, Running, State, Transfer};
use super::{Down, Node, Place, asks};
use letter::{Kind, Letter};

impl State {
    // May an attempt of the other begin here?
    fn may_begin(&self) -> bool
        ensures { result ≡ begins self.now }
    {
        matches!(
            self,
            State::Away | State::Receiving(_) | State::Committed(_)
        )
    }
}

impl Node {
    // The other host asks whether this one is with it in its attempt.
    fn probed<P: Place>(&mut self, w: &mut P, l: &Letter) -> Result<(), Down>
        requires soon { Soon 1 (P.world w.old) }
        requires tidy { Tidy self.old }
        requires ready { Ready 0 (spelt l.now ∷ []) self.old (P.world w.old) }
        requires kind { l.now.kind ≡ Kind.Probe }
        ensures used { Used 1 (P.world w.old) (is_ok result) (P.world w.new) }
        ensures is { OnOk result (self.new ≡ probed l.now.attempt self.old) }
        ensures line { OnOk result (Still (P.world w.old) (P.world w.new)) }
        ensures tidy { OnOk result (Tidy self.new) }
        ensures keeps { Keeps 0 (spelt l.now ∷ []) self.old (P.world w.old) result (λ _. self.new) (P.world w.new) }
    {
        let t = l.attempt;
        self.asked = Some(t);
        if t > self.top && self.state.may_begin() {
            asks::keep(w, 1, t)?;
            self.top = t;
            self.state = State::Receiving(Receiving {
                attempt: t,
                next: 0,
            });
        }
        Ok(())
    }

    // A page: it is put if it is the next of the attempt that is received.
    fn page_came<P: Place>(&mut self, w: &mut P, l: &Letter) -> Result<(), Down>
        requires soon { Soon 1 (P.world w.old) }
        requires tidy { Tidy self.old }
        requires ready { Ready 0 (spelt l.now ∷ []) self.old (P.world w.old) }
        requires kind { l.now.kind ≡ Kind.Page }
        ensures used { Used 1 (P.world w.old) (is_ok result) (P.world w.new) }
        ensures is { OnOk result (self.new ≡ received (P.world w.old).pages l.now self.old) }
        ensures line { OnOk result (Still (P.world w.old) (P.world w.new)) }
        ensures tidy { OnOk result (Tidy self.new) }
        ensures keeps { Keeps 0 (spelt l.now ∷ []) self.old (P.world w.old) result (λ _. self.new) (P.world w.new) }
    {
        let State::Receiving(x) = &self.state else {
            return Ok(());
        };
        if x.attempt == l.attempt && x.next == l.place && l.page < w.pages() {
            asks::put(w, l.page, &l.words)?;
            self.state = State::Receiving(Receiving {
                attempt: l.attempt,
                next: l.place + 1,
            });
        }
        Ok(())
    }

    // The other host has committed its attempt: all of its pages are put here, so the guest goes on here.
    fn committed<P: Place>(&mut self, w: &mut P, l: &Letter) -> Result<(), Down>
        requires soon { Soon 1 (P.world w.old) }
        requires tidy { Tidy self.old }
        requires ready { Ready 0 (spelt l.now ∷ []) self.old (P.world w.old) }
        requires kind { l.now.kind ≡ Kind.Commit }
        ensures used { Used 1 (P.world w.old) (is_ok result) (P.world w.new) }
        ensures is { OnOk result (self.new ≡ taken l.now.attempt self.old) }
        ensures line { OnOk result (Still (P.world w.old) (P.world w.new)) }
        ensures tidy { OnOk result (Tidy self.new) }
        ensures keeps { Keeps 0 (spelt l.now ∷ []) self.old (P.world w.old) result (λ _. self.new) (P.world w.new) }
    {
        let t = l.attempt;
        self.asked = Some(t);
        let State::Receiving(x) = self.state else {
            return Ok(());
        };
        if x.attempt != t {
            return Ok(());
        }
        Right::received(x).resume(w)?;
        self.took = t;
        self.state = State::Running(Running { wanted: false });
        Ok(())
    }

    // The attempt that is committed here is refused: the guest goes on here, unless this host has fallen since.
    fn refused_commit<P: Place>(&mut self, w: &mut P, l: &Letter, x: Committed) -> Result<(), Down>
        requires soon { Soon 1 (P.world w.old) }
        requires tidy { Tidy (on_state (State.Committed x) self.old) }
        requires ready { Ready 0 (spelt l.now ∷ []) (on_state (State.Committed x) self.old) (P.world w.old) }
        requires kind { l.now.kind ≡ Kind.Refuse }
        ensures used { Used 1 (P.world w.old) (is_ok result) (P.world w.new) }
        ensures is { OnOk result (self.new ≡ refused l.now.attempt (on_state (State.Committed x) self.old)) }
        ensures line { OnOk result (Still (P.world w.old) (P.world w.new)) }
        ensures tidy { OnOk result (Tidy self.new) }
        ensures keeps { Keeps 0 (spelt l.now ∷ []) (on_state (State.Committed x) self.old) (P.world w.old) result (λ _. self.new) (P.world w.new) }
    {
        let t = l.attempt;
        if x.attempt != t {
            self.state = State::Committed(x);
            return Ok(());
        }
        if !x.mine {
            self.state = State::Away;
            return Ok(());
        }
        Right::refused(x).resume(w)?;
        self.took = t;
        self.state = State::Running(Running { wanted: true });
        Ok(())
    }

    // The attempt for which the guest was stopped here is refused: it goes on here.
    fn refused_pause<P: Place>(&mut self, w: &mut P, l: &Letter, x: Paused) -> Result<(), Down>
        requires soon { Soon 1 (P.world w.old) }
        requires tidy { Tidy (on_state (State.Paused x) self.old) }
        requires ready { Ready 0 (spelt l.now ∷ []) (on_state (State.Paused x) self.old) (P.world w.old) }
        ensures used { Used 1 (P.world w.old) (is_ok result) (P.world w.new) }
        ensures is { OnOk result (self.new ≡ refused l.now.attempt (on_state (State.Paused x) self.old)) }
        ensures line { OnOk result (Still (P.world w.old) (P.world w.new)) }
        ensures tidy { OnOk result (Tidy self.new) }
        ensures keeps { Keeps 0 (spelt l.now ∷ []) (on_state (State.Paused x) self.old) (P.world w.old) result (λ _. self.new) (P.world w.new) }
    {
        let t = l.attempt;
        if x.transfer.attempt != t {
            self.state = State::Paused(x);
            return Ok(());
        }
        x.right.resume(w)?;
        self.took = t;
        self.state = State::Running(Running { wanted: true });
        Ok(())
    }

    // The other host never will take the attempt.
    fn refused<P: Place>(&mut self, w: &mut P, l: &Letter) -> Result<(), Down>
        requires soon { Soon 1 (P.world w.old) }
        requires tidy { Tidy self.old }
        requires ready { Ready 0 (spelt l.now ∷ []) self.old (P.world w.old) }
        requires kind { l.now.kind ≡ Kind.Refuse }
        ensures used { Used 1 (P.world w.old) (is_ok result) (P.world w.new) }
        ensures is { OnOk result (self.new ≡ refused l.now.attempt self.old) }
        ensures line { OnOk result (Still (P.world w.old) (P.world w.new)) }
        ensures tidy { OnOk result (Tidy self.new) }
        ensures keeps { Keeps 0 (spelt l.now ∷ []) self.old (P.world w.old) result (λ _. self.new) (P.world w.new) }
    {
        let state = std::mem::replace(&mut self.state, State::Away);
        match state {
            State::Committed(x) => self.refused_commit(w, l, x),
            State::Paused(x) => self.refused_pause(w, l, x),
            State::Copying(x) => {
                self.state = x.refused(l.attempt);
                Ok(())
            }
            other => {
                self.state = other;
                Ok(())
            }
        }
    }

    // The other host has put all places of the attempt below that one.
    fn acknowledged<P: Place>(&mut self, w: &mut P, l: &Letter) -> Result<(), Down>
        requires soon { Soon 1 (P.world w.old) }
        requires tidy { Tidy self.old }
        requires ready { Ready 0 (spelt l.now ∷ []) self.old (P.world w.old) }
        requires kind { l.now.kind ≡ Kind.Ack }
        ensures used { Used 1 (P.world w.old) (is_ok result) (P.world w.new) }
        ensures is { OnOk result (self.new ≡ on_state (acked_in l.now.attempt l.now.place self.old.state) self.old) }
        ensures line { OnOk result (Still (P.world w.old) (P.world w.new)) }
        ensures tidy { OnOk result (Tidy self.new) }
        ensures keeps { Keeps 0 (spelt l.now ∷ []) self.old (P.world w.old) result (λ _. self.new) (P.world w.new) }
    {
        let state = std::mem::replace(&mut self.state, State::Away);
        self.state = state.acked(l.attempt, l.place);
        Ok(())
    }

    // The other host has taken the attempt.
    fn gone<P: Place>(&mut self, w: &mut P, l: &Letter) -> Result<(), Down>
        requires soon { Soon 1 (P.world w.old) }
        requires tidy { Tidy self.old }
        requires ready { Ready 0 (spelt l.now ∷ []) self.old (P.world w.old) }
        requires kind { l.now.kind ≡ Kind.Taken }
        ensures used { Used 1 (P.world w.old) (is_ok result) (P.world w.new) }
        ensures is { OnOk result (self.new ≡ on_state (gone_in l.now.attempt self.old.state) self.old) }
        ensures line { OnOk result (Still (P.world w.old) (P.world w.new)) }
        ensures tidy { OnOk result (Tidy self.new) }
        ensures keeps { Keeps 0 (spelt l.now ∷ []) self.old (P.world w.old) result (λ _. self.new) (P.world w.new) }
    {
        let State::Committed(x) = &self.state else {
            return Ok(());
        };
        if x.attempt == l.attempt {
            self.state = State::Away;
        }
        Ok(())
    }

    // A letter has come.
    fn heed<P: Place>(&mut self, w: &mut P, l: &Letter) -> Result<(), Down>
        requires soon { Soon 1 (P.world w.old) }
        requires tidy { Tidy self.old }
        requires ready { Ready 0 (spelt l.now ∷ []) self.old (P.world w.old) }
        ensures used { Used 1 (P.world w.old) (is_ok result) (P.world w.new) }
        ensures is { OnOk result (self.new ≡ heeded (P.world w.old).pages l.now self.old) }
        ensures line { OnOk result (Still (P.world w.old) (P.world w.new)) }
        ensures tidy { OnOk result (Tidy self.new) }
        ensures keeps { Keeps 0 (spelt l.now ∷ []) self.old (P.world w.old) result (λ _. self.new) (P.world w.new) }
    {
        match l.kind {
            Kind::Probe => self.probed(w, l),
            Kind::Page => self.page_came(w, l),
            Kind::Commit => self.committed(w, l),
            Kind::Ack => self.acknowledged(w, l),
            Kind::Refuse => self.refused(w, l),
            Kind::Taken => self.gone(w, l),
        }
    }

    // The next letter: whether one has come.
    fn hear_one<P: Place>(&mut self, w: &mut P) -> Result<bool, Down>
        requires soon { Soon 2 (P.world w.old) }
        requires tidy { Tidy self.old }
        requires ready { Ready 0 [] self.old (P.world w.old) }
        ensures used { Used 2 (P.world w.old) (is_ok result) (P.world w.new) }
        ensures one { IfOk result (λ b. (P.world w.old).left ≤ (P.world w.new).left + bit b + 1) }
        ensures tidy { OnOk result (Tidy self.new) }
        ensures idle { OnOk result (moving self.old.state ≡ None → moving self.new.state ≡ None) }
        ensures is { IfOk result (λ b. OneHeard (P.world w.old).pages b self.old self.new) }
        ensures line { IfOk result (λ b. Hearing (P.world w.old).pages self.old (P.world w.old) (bit b) self.new (P.world w.new)) }
        ensures none { IfOk result (λ b. b ≡ false → (P.world w.new).rough ≡ false → row_here (P.world w.new) ≡ []) }
        ensures keeps { Keeps 0 [] self.old (P.world w.old) result (λ _. self.new) (P.world w.new) }
    {
        let mut words = [0u64; 72];
        if !asks::recv(w, &mut words)? {
            return Ok(false);
        }
        let Some(l) = Letter::read(&words) else {
            return Ok(true);
        };
        self.heed(w, &l)?;
        Ok(true)
    }

    // All that has come, 64 letters at most: how often may still be asked at least, of `most`.
    pub fn hear<P: Place>(&mut self, w: &mut P, most: u32) -> Result<u32, Down>
        requires soon { Soon most (P.world w.old) }
        requires enough { 128 ≤ most }
        requires tidy { Tidy self.old }
        requires ready { Ready 0 [] self.old (P.world w.old) }
        ensures used { Used 128 (P.world w.old) (is_ok result) (P.world w.new) }
        ensures rest { IfOk result (λ m. (m ≤ (P.world w.new).left) × (most ≤ m + 128)) }
        ensures tidy { OnOk result (Tidy self.new) }
        ensures idle { OnOk result (moving self.old.state ≡ None → moving self.new.state ≡ None) }
        ensures is { OnOk result (Heard (P.world w.old).pages self.old self.new) }
        ensures line { OnOk result (HeardAll (P.world w.old).pages self.old (P.world w.old) self.new (P.world w.new)) }
        ensures cost { IfOk result (λ left. (P.world w.new).rough ≡ false → most ≤ left + 2 * length (row_here (P.world w.old)) + 1) }
        ensures keeps { Keeps 0 [] self.old (P.world w.old) result (λ _. self.new) (P.world w.new) }
    {
        for heard in 0..64 {
            if !self.hear_one(w)? {
                return Ok(most - 2 * heard - 1);
            }
        }
        Ok(most - 128)
    }
}

impl Transfer {
    // What a refusal of the attempt t makes of a guest that is copied by this transfer.
    fn refused(self, t: u64) -> State
        ensures { result ≡ refused_in t (State.Copying self) }
    {
        if self.attempt == t {
            State::Running(Running { wanted: true })
        } else {
            State::Copying(self)
        }
    }

    // The other host has put all places of the attempt t below s.
    fn acked(mut self, t: u64, s: u64) -> Transfer
        ensures { result ≡ acked t s self }
    {
        let base = self.window.base();
        let len = self.window.len();
        if self.attempt == t && base < s && s <= base + len {
            self.window.drop_first(s - base);
        }
        self
    }
}

impl State {
    fn acked(self, t: u64, s: u64) -> State
        ensures { result ≡ acked_in t s self }
    {
        match self {
            State::Copying(x) => State::Copying(x.acked(t, s)),
            State::Paused(x) => State::Paused(Paused {
                transfer: x.transfer.acked(t, s),
                ..x
            }),
            other => other,
        }
    }
}
