// What a node does by itself in its turn.
ghost use Rattle.std.specs.Prelude.{◌≡◌, ℕ, ◌+◌, ◌-◌, ◌*◌, ◌%◌, ◌<◌, ◌≤◌, Bool, true, false, ◌||◌, List, [], length, is_ok, IfOk, Some, None, OnOk};
ghost use Rattle.window.specs.Pages.{Sound};
ghost use Rattle.letter.specs.Words.{head};
ghost use Rattle.moving.specs.Used.{Soon, Used};
ghost use Rattle.moving.specs.Calm.{Still, Added};
ghost use Rattle.moving.specs.Over.{CopiesOver, RunOver, CopyOver, PauseOver, ActedOver};
ghost use Rattle.moving.specs.Hosts.{me};
ghost use Rattle.moving.specs.Model.{Tidy, on_state, on_top, Enough, ticked, afresh, short_before};
ghost use Rattle.moving.specs.Acted.{Copies, New, RunDid, CopyDid, PauseDid, ActedIn, commits, said_again, took_for};
ghost use Rattle.moving.specs.Invariant.{Ready, Keeps};

use super::right::Right;
use super::state::{Committed, Paused, Running, State, Transfer};
use super::{Down, Node, Place, asks};
use letter::Kind;

// A pass that took more turns than this isn't followed by a stop.
const LONG_PASS: u32 = 37;

// A guest that was stopped goes on here after so many turns, if the attempt can't be committed yet.
const LONG_PAUSE: u32 = 27;

// The least number above top that tells of this host.
fn next_attempt(top: u64, me: u64) -> u64
    requires { (me ≤ 1) × (top + 2 < 18446744073709551616) }
    ensures { (top < result) × ((result ≤ top + 2) × (result % 2 ≡ me)) }
{
    let t = top + 1;
    if t % 2 == me {
        return t;
    }
    t + 1
}

impl Transfer {
    // A pass came before this one, and took few turns: then this one may begin with a stop.
    fn follows_short_pass(&self) -> bool
        ensures { result ≡ short_before self.now.prev }
    {
        self.prev.is_some_and(|turns| turns <= LONG_PASS)
    }
}

impl Node {
    // Whether the guest, which runs here, is to be moved.
    fn wants<P: Place>(&mut self, w: &mut P, x: Running) -> Result<bool, Down>
        requires soon { Soon 1 (P.world w.old) }
        requires tidy { Tidy (on_state (State.Running x) self.old) }
        requires ready { Ready 0 [] (on_state (State.Running x) self.old) (P.world w.old) }
        ensures used { Used 1 (P.world w.old) (is_ok result) (P.world w.new) }
        ensures is { IfOk result (λ b. self.new ≡ on_state (State.Running (record { wanted = b })) self.old) }
        ensures value { IfOk result (λ b. b ≡ (x.wanted || (me (P.world w.old)).told)) }
        ensures line { OnOk result (Still (P.world w.old) (P.world w.new)) }
        ensures keeps { Keeps 0 [] (on_state (State.Running x) self.old) (P.world w.old) result (λ _. self.new) (P.world w.new) }
    {
        if x.wanted {
            self.state = State::Running(x);
            return Ok(true);
        }
        let told = asks::told(w)?;
        self.state = State::Running(Running { wanted: told });
        Ok(told)
    }

    // A new attempt.
    fn attempt<P: Place>(&mut self, w: &mut P) -> Result<Transfer, Down>
        requires soon { Soon 1 (P.world w.old) }
        requires tidy { Tidy self.old }
        requires ready { Ready 2 [] self.old (P.world w.old) }
        requires wanted { self.old.state ≡ State.Running (record { wanted = true }) }
        ensures used { Used 1 (P.world w.old) (is_ok result) (P.world w.new) }
        ensures is { IfOk result (λ c. self.new ≡ on_top c.attempt self.old.state self.old) }
        ensures new { IfOk result (λ c. Sound c.window × (length c.window.pages ≡ 0) × (self.old.top < c.attempt)) }
        ensures pass { IfOk result (λ c. New (P.world w.old).pages self.old c) }
        ensures line { OnOk result (Still (P.world w.old) (P.world w.new)) }
        ensures keeps { Keeps 2 [] self.old (P.world w.old) result (λ c. on_state (State.Copying c) self.new) (P.world w.new) }
    {
        let t = next_attempt(self.top, self.me);
        let transfer = Transfer::new(t, w.pages());
        asks::keep(w, 1, t)?;
        self.top = t;
        Ok(transfer)
    }

    // The guest runs here: if it is to be moved, an attempt begins. (Here and below, w and most are no struct: a borrow in a struct would be in every clause.)
    fn run<P: Place>(&mut self, w: &mut P, x: Running, most: u32) -> Result<(), Down>
        requires soon { Soon most (P.world w.old) }
        requires tidy { Tidy (on_state (State.Running x) self.old) }
        requires ready { Ready 64 [] (on_state (State.Running x) self.old) (P.world w.old) }
        requires enough { 3 ≤ most }
        ensures used { Used most (P.world w.old) (is_ok result) (P.world w.new) }
        ensures tidy { OnOk result (Tidy self.new) }
        ensures is { OnOk result (RunDid (P.world w.old).pages most (me (P.world w.old)).told x (on_state State.Away self.old) self.new) }
        ensures makes { OnOk result (RunOver (P.world w.old).pages most (me (P.world w.old)).told x (on_state State.Away self.old) (P.world w.old) self.new (P.world w.new)) }
        ensures keeps { Keeps 64 [] (on_state (State.Running x) self.old) (P.world w.old) result (λ _. self.new) (P.world w.new) }
    {
        if !self.wants(w, x)? {
            return Ok(());
        }
        let mut transfer = self.attempt(w)?.tick();
        transfer.go_on(w, most - 2)?;
        self.state = State::Copying(transfer);
        Ok(())
    }

    // The guest runs here and is copied: after a short pass it is stopped.
    fn copy<P: Place>(&mut self, w: &mut P, x: Transfer, most: u32) -> Result<(), Down>
        requires soon { Soon most (P.world w.old) }
        requires tidy { Tidy (on_state (State.Copying x) self.old) }
        requires ready { Ready 62 [] (on_state (State.Copying x) self.old) (P.world w.old) }
        requires enough { 2 + 2 * length x.window.pages ≤ most }
        ensures used { Used most (P.world w.old) (is_ok result) (P.world w.new) }
        ensures tidy { OnOk result (Tidy self.new) }
        ensures is { OnOk result (CopyDid (P.world w.old).pages most x (on_state State.Away self.old) self.new) }
        ensures makes { OnOk result (CopyOver (P.world w.old).pages most x (on_state State.Away self.old) (P.world w.old) self.new (P.world w.new)) }
        ensures keeps { Keeps 62 [] (on_state (State.Copying x) self.old) (P.world w.old) result (λ _. self.new) (P.world w.new) }
    {
        if !x.is_over(w.pages()) {
            let mut y = x.tick();
            y.go_on(w, most)?;
            self.state = State::Copying(y);
            return Ok(());
        }
        let turns = x.turns;
        let mut y = x.new_pass(Some(turns)).tick();
        if !y.follows_short_pass() {
            y.go_on(w, most)?;
            self.state = State::Copying(y);
            return Ok(());
        }
        let right = Right::stop(w, y.attempt)?;
        y.go_on(w, most - 1)?;
        self.state = State::Paused(Paused {
            transfer: y,
            right,
            turns: 1,
        });
        Ok(())
    }

    // All is there: the attempt is committed.
    fn commit<P: Place>(&mut self, w: &mut P, x: Paused) -> Result<(), Down>
        requires soon { Soon 2 (P.world w.old) }
        requires tidy { Tidy (on_state (State.Paused x) self.old) }
        requires ready { Ready 0 [] (on_state (State.Paused x) self.old) (P.world w.old) }
        requires none { length x.transfer.window.pages ≡ 0 }
        requires all { x.transfer.cursor ≡ (P.world w.old).pages }
        ensures used { Used 2 (P.world w.old) (is_ok result) (P.world w.new) }
        ensures tidy { OnOk result (Tidy self.new) }
        ensures is { OnOk result (self.new ≡ commits x.transfer.attempt self.old) }
        ensures line { OnOk result (Added (head Kind.Commit x.transfer.attempt 0 0) (P.world w.old) (P.world w.new)) }
        ensures keeps { Keeps 0 [] (on_state (State.Paused x) self.old) (P.world w.old) result (λ _. self.new) (P.world w.new) }
    {
        let attempt = x.transfer.attempt;
        x.right.commit(w)?;
        self.committed = attempt;
        self.state = State::Committed(Committed {
            attempt,
            mine: true,
            turns: 1,
        });
        asks::tell(w, Kind::Commit, attempt, 0)
    }

    // It stands too long: the guest goes on here, and is copied on.
    fn give_up<P: Place>(&mut self, w: &mut P, x: Paused, most: u32) -> Result<(), Down>
        requires soon { Soon most (P.world w.old) }
        requires tidy { Tidy (on_state (State.Paused x) self.old) }
        requires ready { Ready 62 [] (on_state (State.Paused x) self.old) (P.world w.old) }
        requires enough { 2 + 2 * length x.transfer.window.pages ≤ most }
        ensures used { Used most (P.world w.old) (is_ok result) (P.world w.new) }
        ensures tidy { OnOk result (Tidy self.new) }
        ensures is { OnOk result (Copies (P.world w.old).pages (most - 1) (ticked (afresh x.transfer)) (took_for x.transfer.attempt (on_state State.Away self.old)) self.new) }
        ensures makes { OnOk result (CopiesOver (P.world w.old).pages (most - 1) (ticked (afresh x.transfer)) (took_for x.transfer.attempt (on_state State.Away self.old)) (P.world w.old) self.new (P.world w.new)) }
        ensures keeps { Keeps 62 [] (on_state (State.Paused x) self.old) (P.world w.old) result (λ _. self.new) (P.world w.new) }
    {
        let mut y = x.transfer.new_pass(None).tick();
        x.right.resume(w)?;
        self.took = y.attempt;
        y.go_on(w, most - 1)?;
        self.state = State::Copying(y);
        Ok(())
    }

    // The guest was stopped here: the rest of it is sent, and then the attempt is committed.
    fn pause<P: Place>(&mut self, w: &mut P, x: Paused, most: u32) -> Result<(), Down>
        requires soon { Soon most (P.world w.old) }
        requires tidy { Tidy (on_state (State.Paused x) self.old) }
        requires ready { Ready 62 [] (on_state (State.Paused x) self.old) (P.world w.old) }
        requires enough { 2 + 2 * length x.transfer.window.pages ≤ most }
        ensures used { Used most (P.world w.old) (is_ok result) (P.world w.new) }
        ensures tidy { OnOk result (Tidy self.new) }
        ensures is { OnOk result (PauseDid (P.world w.old).pages most x (on_state State.Away self.old) self.new) }
        ensures makes { OnOk result (PauseOver (P.world w.old).pages most x (on_state State.Away self.old) (P.world w.old) self.new (P.world w.new)) }
        ensures keeps { Keeps 62 [] (on_state (State.Paused x) self.old) (P.world w.old) result (λ _. self.new) (P.world w.new) }
    {
        if x.transfer.is_over(w.pages()) {
            return self.commit(w, x);
        }
        if x.turns >= LONG_PAUSE {
            return self.give_up(w, x, most);
        }
        let mut y = x.transfer.tick();
        y.go_on(w, most)?;
        self.state = State::Paused(Paused {
            transfer: y,
            right: x.right,
            turns: x.turns + 1,
        });
        Ok(())
    }

    // The attempt is committed: the other host is told so again.
    fn say_again<P: Place>(&mut self, w: &mut P, x: Committed) -> Result<(), Down>
        requires soon { Soon 1 (P.world w.old) }
        requires tidy { Tidy (on_state (State.Committed x) self.old) }
        requires ready { Ready 0 [] (on_state (State.Committed x) self.old) (P.world w.old) }
        ensures used { Used 1 (P.world w.old) (is_ok result) (P.world w.new) }
        ensures tidy { OnOk result (Tidy self.new) }
        ensures is { OnOk result (self.new ≡ said_again x self.old) }
        ensures line { OnOk result (Added (head Kind.Commit x.attempt 0 0) (P.world w.old) (P.world w.new)) }
        ensures keeps { Keeps 0 [] (on_state (State.Committed x) self.old) (P.world w.old) result (λ _. self.new) (P.world w.new) }
    {
        self.state = State::Committed(Committed {
            turns: x.turns.saturating_add(1),
            ..x
        });
        asks::tell(w, Kind::Commit, x.attempt, 0)
    }

    // What it does by itself, with so many asks at most.
    pub fn act<P: Place>(&mut self, w: &mut P, most: u32) -> Result<(), Down>
        requires soon { Soon most (P.world w.old) }
        requires tidy { Tidy self.old }
        requires ready { Ready 64 [] self.old (P.world w.old) }
        requires enough { Enough most self.old.state }
        ensures used { Used most (P.world w.old) (is_ok result) (P.world w.new) }
        ensures tidy { OnOk result (Tidy self.new) }
        ensures is { OnOk result (ActedIn (P.world w.old).pages most (me (P.world w.old)).told self.old.state (on_state State.Away self.old) self.new) }
        ensures makes { OnOk result (ActedOver (P.world w.old).pages most (me (P.world w.old)).told self.old.state (on_state State.Away self.old) (P.world w.old) self.new (P.world w.new)) }
        ensures keeps { Keeps 64 [] self.old (P.world w.old) result (λ _. self.new) (P.world w.new) }
    {
        let state = std::mem::replace(&mut self.state, State::Away);
        match state {
            State::Running(x) => self.run(w, x, most),
            State::Copying(x) => self.copy(w, x, most),
            State::Paused(x) => self.pause(w, x, most),
            State::Committed(x) => self.say_again(w, x),
            State::Receiving(x) => {
                self.state = State::Receiving(x);
                Ok(())
            }
            State::Away => Ok(()),
        }
    }
}
