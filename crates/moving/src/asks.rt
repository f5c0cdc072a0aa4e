// What a host asks, with how much of the turn it uses.
ghost use Rattle.std.specs.Prelude.{◌≡◌, ℕ, ◌<◌, ◌≤◌, Bool, length, is_ok, IfOk, OnOk};
ghost use Rattle.letter.specs.Words.{head, spelt};
ghost use Rattle.moving.specs.Hosts.{Does, Posts, Gets, MayPut, MayStop, MayResume, me, heard, untouched, kept, put_page, stopped, resumed};
ghost use Rattle.moving.specs.Model.{bare};
ghost use Rattle.moving.specs.Used.{Soon, Used};
ghost use Rattle.moving.specs.Calm.{Offline, Still, Added, Pulled};

use super::{Down, Place};
use letter::{Kind, Letter};

pub fn told<P: Place>(w: &mut P) -> Result<bool, Down>
    requires soon { Soon 1 (P.world w.old) }
    ensures used { Used 1 (P.world w.old) (is_ok result) (P.world w.new) }
    ensures does { Does (P.world w.old) (heard (P.world w.old)) (is_ok result) (P.world w.new) }
    ensures line { OnOk result (Still (P.world w.old) (P.world w.new)) }
    ensures value { IfOk result (λ x. x ≡ (me (P.world w.old)).told) }
{
    w.told()
}

pub fn touched<P: Place>(w: &mut P, p: u32) -> Result<bool, Down>
    requires soon { Soon 1 (P.world w.old) }
    requires inside { p < (P.world w.old).pages }
    ensures used { Used 1 (P.world w.old) (is_ok result) (P.world w.new) }
    ensures does { Does (P.world w.old) (untouched p (P.world w.old)) (is_ok result) (P.world w.new) }
    ensures line { OnOk result (Still (P.world w.old) (P.world w.new)) }
    ensures value { IfOk result (λ x. x ≡ (me (P.world w.old)).touched p) }
{
    w.touched(p)
}

pub fn get<P: Place>(w: &mut P, c: u32) -> Result<u64, Down>
    requires soon { Soon 1 (P.world w.old) }
    requires cell { c < 64 }
    ensures used { Used 1 (P.world w.old) (is_ok result) (P.world w.new) }
    ensures does { Does (P.world w.old) (P.world w.old) (is_ok result) (P.world w.new) }
    ensures line { OnOk result (Still (P.world w.old) (P.world w.new)) }
    ensures value { IfOk result (λ x. x ≡ (me (P.world w.old)).cell c) }
{
    w.get(c)
}

pub fn keep<P: Place>(w: &mut P, c: u32, x: u64) -> Result<(), Down>
    requires soon { Soon 1 (P.world w.old) }
    requires cell { c < 64 }
    ensures used { Used 1 (P.world w.old) (is_ok result) (P.world w.new) }
    ensures does { Does (P.world w.old) (kept c x (P.world w.old)) (is_ok result) (P.world w.new) }
    ensures line { OnOk result (Still (P.world w.old) (P.world w.new)) }
{
    w.keep(c, x)
}

pub fn put<P: Place>(w: &mut P, p: u32, words: &[u64; 64]) -> Result<(), Down>
    requires soon { Soon 1 (P.world w.old) }
    requires inside { p < (P.world w.old).pages }
    requires may { MayPut (P.world w.old) }
    ensures used { Used 1 (P.world w.old) (is_ok result) (P.world w.new) }
    ensures does { Does (P.world w.old) (put_page p words.now (P.world w.old)) (is_ok result) (P.world w.new) }
    ensures line { OnOk result (Still (P.world w.old) (P.world w.new)) }
{
    w.put(p, words)
}

pub fn stop<P: Place>(w: &mut P) -> Result<(), Down>
    requires soon { Soon 1 (P.world w.old) }
    requires may { MayStop (P.world w.old) }
    ensures used { Used 1 (P.world w.old) (is_ok result) (P.world w.new) }
    ensures does { Does (P.world w.old) (stopped (P.world w.old)) (is_ok result) (P.world w.new) }
    ensures line { OnOk result (Offline (P.world w.old) (P.world w.new)) }
{
    w.stop()
}

pub fn resume<P: Place>(w: &mut P, x: u64) -> Result<(), Down>
    requires soon { Soon 1 (P.world w.old) }
    requires may { MayResume (P.world w.old) }
    ensures used { Used 1 (P.world w.old) (is_ok result) (P.world w.new) }
    ensures does { Does (P.world w.old) (resumed x (P.world w.old)) (is_ok result) (P.world w.new) }
    ensures line { OnOk result (Still (P.world w.old) (P.world w.new)) }
{
    w.resume(x)
}

pub fn page<P: Place>(w: &mut P, p: u32) -> Result<[u64; 64], Down>
    requires soon { Soon 1 (P.world w.old) }
    requires inside { p < (P.world w.old).pages }
    ensures used { Used 1 (P.world w.old) (is_ok result) (P.world w.new) }
    ensures does { Does (P.world w.old) (P.world w.old) (is_ok result) (P.world w.new) }
    ensures line { OnOk result (Still (P.world w.old) (P.world w.new)) }
    ensures words { IfOk result (λ x. x ≡ (me (P.world w.old)).page p) }
{
    let mut words = [0; 64];
    w.page(p, &mut words)?;
    Ok(words)
}

// A letter to the other host.
pub fn send<P: Place>(w: &mut P, l: &Letter) -> Result<(), Down>
    requires soon { Soon 1 (P.world w.old) }
    ensures used { Used 1 (P.world w.old) (is_ok result) (P.world w.new) }
    ensures posts { Posts (P.world w.old) (spelt l.now) (is_ok result) (P.world w.new) }
    ensures line { OnOk result (Added (head l.now.kind l.now.attempt l.now.place l.now.page) (P.world w.old) (P.world w.new)) }
{
    let mut words = [0u64; 72];
    l.write(&mut words);
    w.send(&words)
}

// A letter without a page.
pub fn tell<P: Place>(w: &mut P, kind: Kind, attempt: u64, place: u64) -> Result<(), Down>
    requires soon { Soon 1 (P.world w.old) }
    ensures used { Used 1 (P.world w.old) (is_ok result) (P.world w.new) }
    ensures posts { Posts (P.world w.old) (spelt (bare kind attempt place)) (is_ok result) (P.world w.new) }
    ensures line { OnOk result (Added (head kind attempt place 0) (P.world w.old) (P.world w.new)) }
{
    let l = Letter {
        kind,
        attempt,
        place,
        page: 0,
        words: [0; 64],
    };
    send(w, &l)
}

// A letter that has come, as 72 words, if there is one. (As in `Place`: `Gets` speaks of the answer and of the words apart, and an Option would need more to say it.)
pub fn recv<P: Place>(w: &mut P, into: &mut [u64]) -> Result<bool, Down>
    requires soon { Soon 1 (P.world w.old) }
    requires long { length into.old ≡ 72 }
    ensures used { Used 1 (P.world w.old) (is_ok result) (P.world w.new) }
    ensures gets { Gets (P.world w.old) result into.new (P.world w.new) }
    ensures line { IfOk result (λ b. Pulled (P.world w.old) b into.new (P.world w.new)) }
{
    w.recv(into)
}
