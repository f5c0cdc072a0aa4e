// How a turn begins and ends: a node that has just begun reads its cells, and one that was asked answers.
ghost use Rattle.std.specs.Prelude.{◌≡◌, ℕ, ◌+◌, ◌-◌, ◌<◌, ◌≤◌, Bool, true, false, List, [], is_ok, IfOk, Some, None, OnOk};
ghost use Rattle.moving.specs.Hosts.{me};
ghost use Rattle.moving.specs.Used.{Soon, Used};
ghost use Rattle.moving.specs.Calm.{Still, SentIf, reply_of};
ghost use Rattle.moving.specs.Model.{Tidy, Rested, moving, woken, silent, answer_in};
ghost use Rattle.moving.specs.Invariant.{Ready, Keeps};

use super::state::{Committed, State};
use super::{Down, Node, Place, asks};
use letter::Kind;

// What is said to who asked: of which kind the letter is, and its place.
#[derive(Clone, Copy, Debug, PartialEq, Eq)]
pub struct Answer {
    pub kind: Kind,
    pub place: u64,
}

impl State {
    // What is answered to who asked for the attempt t, if anything; took: the attempt for which the guest was last resumed here.
    fn answer(&self, t: u64, took: u64) -> Option<Answer>
        ensures { result ≡ answer_in self.now t took }
    {
        match self {
            State::Copying(_) | State::Paused(_) | State::Committed(_) => return None,
            State::Receiving(x) => {
                if x.attempt == t {
                    return Some(Answer {
                        kind: Kind::Ack,
                        place: x.next,
                    });
                }
            }
            State::Away | State::Running(_) => {}
        }
        if took >= t {
            return Some(Answer {
                kind: Kind::Taken,
                place: 0,
            });
        }
        Some(Answer {
            kind: Kind::Refuse,
            place: 0,
        })
    }
}

impl Node {
    // Reads the cells, unless it is awake: how often may still be asked, of 256. A host that fell after its commit says it again.
    pub fn wake<P: Place>(&mut self, w: &mut P) -> Result<u32, Down>
        requires soon { Soon 3 (P.world w.old) }
        requires rested { Rested self.old }
        requires ready { Ready 0 [] self.old (P.world w.old) }
        ensures used { Used 3 (P.world w.old) (is_ok result) (P.world w.new) }
        ensures rest { IfOk result (λ m. (253 ≤ m) × (m ≤ 256) × ((P.world w.old).left + m ≤ (P.world w.new).left + 256)) }
        ensures full { IfOk result (λ m. self.old.awake ≡ true → m ≡ 256) }
        ensures idle { IfOk result (λ m. m < 256 → moving self.new.state ≡ None) }
        ensures is { OnOk result (self.new ≡ woken ((me (P.world w.old)).cell 0) ((me (P.world w.old)).cell 1) ((me (P.world w.old)).cell 2) self.old) }
        ensures line { OnOk result (Still (P.world w.old) (P.world w.new)) }
        ensures tidy { OnOk result (Tidy self.new) }
        ensures keeps { Keeps 0 [] self.old (P.world w.old) result (λ _. self.new) (P.world w.new) }
    {
        if self.awake {
            return Ok(256);
        }
        let took = asks::get(w, 0)?;
        let top = asks::get(w, 1)?;
        let committed = asks::get(w, 2)?;
        self.awake = true;
        self.took = took;
        self.top = top;
        self.committed = committed;
        if committed == top && top > 0 && top % 2 == self.me {
            self.state = State::Committed(Committed {
                attempt: top,
                mine: false,
                turns: 0,
            });
        }
        Ok(253)
    }

    // Who asked in this turn is answered.
    pub fn reply<P: Place>(&mut self, w: &mut P) -> Result<(), Down>
        requires soon { Soon 1 (P.world w.old) }
        requires tidy { Tidy self.old }
        requires ready { Ready 0 [] self.old (P.world w.old) }
        ensures used { Used 1 (P.world w.old) (is_ok result) (P.world w.new) }
        ensures is { OnOk result (self.new ≡ silent self.old) }
        ensures line { OnOk result (SentIf (reply_of self.old) (P.world w.old) (P.world w.new)) }
        ensures keeps { Keeps 0 [] self.old (P.world w.old) result (λ _. self.new) (P.world w.new) }
    {
        let Some(t) = self.asked.take() else {
            return Ok(());
        };
        let Some(answer) = self.state.answer(t, self.took) else {
            return Ok(());
        };
        asks::tell(w, answer.kind, t, answer.place)
    }
}
