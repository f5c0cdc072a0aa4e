// The right to resume the guest here: a value that can't be copied, so it is used once. That it's made only when it may be is in `resume`'s contract.
ghost use Rattle.std.specs.Prelude.{◌≡◌, ℕ, is_ok, IfOk, OnOk};
ghost use Rattle.moving.specs.Hosts.{Does, MayStop, MayResume, kept, stopped, resumed};
ghost use Rattle.moving.specs.Used.{Soon, Used};
ghost use Rattle.moving.specs.Calm.{Offline, Still};

use super::state::{Committed, Receiving};
use super::{Down, Place, asks};

#[derive(Drop)]
pub struct Right {
    attempt: u64,
}

impl Right {
    // The guest is stopped here for an attempt.
    pub fn stop<P: Place>(w: &mut P, attempt: u64) -> Result<Right, Down>
        requires soon { Soon 1 (P.world w.old) }
        requires may { MayStop (P.world w.old) }
        ensures used { Used 1 (P.world w.old) (is_ok result) (P.world w.new) }
        ensures does { Does (P.world w.old) (stopped (P.world w.old)) (is_ok result) (P.world w.new) }
        ensures line { OnOk result (Offline (P.world w.old) (P.world w.new)) }
        ensures right { IfOk result (λ x. x.attempt ≡ attempt) }
    {
        asks::stop(w)?;
        Ok(Right { attempt })
    }

    // The other host has refused the attempt that is committed here: what says so is given up for the right. (This and `received` have one body and two types:
    // the name says which state is given up, and a generic one would take any.)
    pub fn refused(x: Committed) -> Right
        ensures { result.attempt ≡ x.attempt }
    {
        Right { attempt: x.attempt }
    }

    // All pages of an attempt are put here, and it's committed: what says so is given up for the right.
    pub fn received(x: Receiving) -> Right
        ensures { result.attempt ≡ x.attempt }
    {
        Right { attempt: x.attempt }
    }

    // The attempt is committed: from then on there is no right here.
    pub fn commit<P: Place>(self, w: &mut P) -> Result<(), Down>
        requires soon { Soon 1 (P.world w.old) }
        ensures used { Used 1 (P.world w.old) (is_ok result) (P.world w.new) }
        ensures does { Does (P.world w.old) (kept 2 self.attempt (P.world w.old)) (is_ok result) (P.world w.new) }
        ensures line { OnOk result (Still (P.world w.old) (P.world w.new)) }
    {
        asks::keep(w, 2, self.attempt)
    }

    // The guest goes on here, and cell 0 says for which attempt.
    pub fn resume<P: Place>(self, w: &mut P) -> Result<(), Down>
        requires soon { Soon 1 (P.world w.old) }
        requires may { MayResume (P.world w.old) }
        ensures used { Used 1 (P.world w.old) (is_ok result) (P.world w.new) }
        ensures does { Does (P.world w.old) (resumed self.attempt (P.world w.old)) (is_ok result) (P.world w.new) }
        ensures line { OnOk result (Still (P.world w.old) (P.world w.new)) }
    {
        asks::resume(w, self.attempt)
    }
}
