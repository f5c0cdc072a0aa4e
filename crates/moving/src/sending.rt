// A transfer: what is sent of the guest, and in which order.
ghost use Rattle.std.specs.Prelude.{◌≡◌, ℕ, ◌+◌, ◌-◌, ◌*◌, ◌<◌, ◌≤◌, Bool, true, false, ◌||◌, List, [], length, is_ok, IfOk, Some, None, OnOk, nat_lt};
ghost use Rattle.pageset.specs.Member.{member};
ghost use Rattle.pageset.specs.Count.{bit};
ghost use Rattle.window.specs.Pages.{Sound};
ghost use Rattle.letter.specs.Words.{head};
ghost use Rattle.moving.specs.Used.{Soon, Used};
ghost use Rattle.moving.specs.Calm.{Added, Rests, Within, Passed, Asked, AskedTo, Went};
ghost use Rattle.moving.specs.Hosts.{me};
ghost use Rattle.moving.specs.Model.{ticked, new_pass, over};
ghost use Rattle.moving.specs.Scan.{Below, Looked, Scanned, GoneOn, grows};
ghost use Rattle.moving.specs.Invariant.{slot, end, unsent, Carrying, Carried};

use super::state::Transfer;
use super::{Down, Place, asks};
use letter::{Kind, Letter};
use pageset::PageSet;
use window::Window;

impl Transfer {
    // A new attempt: nothing was sent yet.
    pub fn new(attempt: u64, pages: u32) -> Transfer
        requires { pages ≤ 4096 }
        ensures attempt { result.attempt ≡ attempt }
        ensures window { (Sound result.window) × ((length result.window.pages ≡ 0) × (result.window.base ≡ 0)) }
        ensures unsent { (p : ℕ) → unsent result p ≡ nat_lt p pages }
        ensures pass { (result.cursor ≡ 0) × ((result.sent ≡ 0) × ((result.turns ≡ 0) × (result.prev ≡ None))) }
    {
        Transfer {
            attempt,
            window: Window::new(),
            unsent: PageSet::below(pages),
            cursor: 0,
            sent: 0,
            turns: 0,
            prev: None,
        }
    }

    // All pages were looked at, and none is on its way.
    pub fn is_over(&self, pages: u32) -> bool
        ensures { result ≡ over pages self.now }
    {
        self.window.is_empty() && self.cursor == pages
    }

    // A turn more of this pass.
    pub fn tick(self) -> Transfer
        ensures { result ≡ ticked self }
    {
        Transfer {
            turns: self.turns.saturating_add(1),
            ..self
        }
    }

    // A new pass; prev: how many turns the pass before took, if one came before.
    pub fn new_pass(self, prev: Option<u32>) -> Transfer
        ensures { result ≡ new_pass prev self }
    {
        Transfer {
            cursor: 0,
            sent: 0,
            turns: 0,
            prev,
            ..self
        }
    }

    // The page at a place of the window is sent, as it is now.
    fn send_page<P: Place>(&self, w: &mut P, place: u64) -> Result<(), Down>
        requires soon { Soon 2 (P.world w.old) }
        requires low { self.now.window.base ≤ place }
        requires high { place < end self.now }
        requires inside { slot self.now (place - self.now.window.base) < (P.world w.old).pages }
        ensures used { Used 2 (P.world w.old) (is_ok result) (P.world w.new) }
        ensures line { OnOk result (Added (head Kind.Page self.now.attempt place (slot self.now (place - self.now.window.base))) (P.world w.old) (P.world w.new)) }
        ensures keeps { Carried 0 self.now (P.world w.old) result self.now (P.world w.new) }
    {
        let page = self.window.page_at(place);
        let words = asks::page(w, page)?;
        let l = Letter {
            kind: Kind::Page,
            attempt: self.attempt,
            place,
            page,
            words,
        };
        asks::send(w, &l)
    }

    // Looks at the page at the cursor, and sends it if it was written since it was last asked for or was never sent: whether it was sent.
    fn look<P: Place>(&mut self, w: &mut P) -> Result<bool, Down>
        requires soon { Soon 3 (P.world w.old) }
        requires room { length self.old.window.pages < 62 }
        requires more { self.old.cursor < (P.world w.old).pages }
        requires below { Below self.old }
        requires ready { Carrying 1 self.old (P.world w.old) }
        ensures used { Used 3 (P.world w.old) (is_ok result) (P.world w.new) }
        ensures one { IfOk result (λ b. ((P.world w.old).left ≤ (P.world w.new).left + 1 + 2 * bit b) × (length self.new.window.pages ≡ length self.old.window.pages + bit b)) }
        ensures is { OnOk result (Looked ((me (P.world w.old)).touched self.old.cursor) self.old self.new) }
        ensures line { OnOk result (Passed self.old (P.world w.old) self.new (P.world w.new)) }
        ensures asked { OnOk result (Asked self.old (P.world w.old) → Asked self.new (P.world w.new)) }
        ensures sound { OnOk result (Sound self.new.window × Below self.new) }
        ensures keeps { Carried (grows result) self.old (P.world w.old) result self.new (P.world w.new) }
    {
        let p = self.cursor;
        let touched = asks::touched(w, p)?;
        let unsent = self.unsent.has(p);
        self.cursor = p + 1;
        if !touched && !unsent {
            return Ok(false);
        }
        self.unsent.remove(p);
        let place = self.window.push(p);
        self.sent = self.sent.saturating_add(1);
        self.send_page(w, place)?;
        Ok(true)
    }

    // Goes on with the pass, with so many asks at most. (The cursor outlasts the turn, and a look costs one ask or three: a `for` would count neither.)
    fn scan<P: Place>(&mut self, w: &mut P, most: u32) -> Result<(), Down>
        requires soon { Soon most (P.world w.old) }
        requires none { length self.old.window.pages ≡ 0 }
        requires ready { Carrying 62 self.old (P.world w.old) }
        ensures used { Used most (P.world w.old) (is_ok result) (P.world w.new) }
        ensures is { OnOk result (Scanned (P.world w.old).pages most self.old self.new) }
        ensures within { OnOk result (Within (P.world w.old).pages self.old self.new) }
        ensures line { OnOk result (Passed self.old (P.world w.old) self.new (P.world w.new)) }
        ensures asked { OnOk result (Asked self.old (P.world w.old) → Asked self.new (P.world w.new)) }
        ensures sound { OnOk result (Sound self.new.window) }
        ensures keeps { Carried 62 self.old (P.world w.old) result self.new (P.world w.new) }
    {
        let pages = w.pages();
        let mut left = most;
        while left >= 3 && !self.window.is_full() && self.cursor < pages {
            let sent = self.look(w)?;
            left -= 1 + 2 * u32::from(sent);
        }
        Ok(())
    }

    // Sends again all that is on its way.
    fn resend<P: Place>(&self, w: &mut P) -> Result<(), Down>
        requires soon { Soon (2 * length self.now.window.pages) (P.world w.old) }
        requires ready { Carrying 0 self.now (P.world w.old) }
        ensures used { Used (2 * length self.now.window.pages) (P.world w.old) (is_ok result) (P.world w.new) }
        ensures line { OnOk result (Passed self.now (P.world w.old) self.now (P.world w.new)) }
        ensures asked { OnOk result (AskedTo 0 self.now (P.world w.old) → Asked self.now (P.world w.new)) }
        ensures keeps { Carried 0 self.now (P.world w.old) result self.now (P.world w.new) }
    {
        let base = self.window.base();
        for place in base..base + self.window.len() {
            self.send_page(w, place)?;
        }
        Ok(())
    }

    // Tells the other host of the attempt; then sends again what is on its way or, if nothing is, goes on with the pass.
    pub fn go_on<P: Place>(&mut self, w: &mut P, most: u32) -> Result<(), Down>
        requires soon { Soon most (P.world w.old) }
        requires enough { 1 + 2 * length self.old.window.pages ≤ most }
        requires ready { Carrying 62 self.old (P.world w.old) }
        ensures used { Used most (P.world w.old) (is_ok result) (P.world w.new) }
        ensures is { OnOk result (GoneOn (P.world w.old).pages most self.old self.new) }
        ensures within { OnOk result (Within (P.world w.old).pages self.old self.new) }
        ensures line { OnOk result (Went self.old (P.world w.old) self.new (P.world w.new) × Rests (P.world w.old) (P.world w.new)) }
        ensures sound { OnOk result (Sound self.new.window) }
        ensures keeps { Carried 62 self.old (P.world w.old) result self.new (P.world w.new) }
    {
        asks::tell(w, Kind::Probe, self.attempt, 0)?;
        if self.window.is_empty() {
            self.scan(w, most - 1)
        } else {
            self.resend(w)
        }
    }
}
