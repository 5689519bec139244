//! The steps of a worker's ask.
ghost use Rattle.std.specs.Prelude.{◌≡◌, true, [], Some, IsSome};
ghost use Rattle.octo_asks.specs.declared.request.Ask.{Ask};
ghost use Rattle.octo_serve.specs.declared.board.Stage.TheVariants.{Resting, Waiting};
ghost use Rattle.octo_serve.specs.declared.board.View.TheVariants.{Worker};
ghost use Rattle.octo_serve.specs.Views.{worker_of};
ghost use Rattle.octo_serve.specs.Steps.{at_stage, answer_in};
ghost use Rattle.octo_serve.specs.Ends.{IsSized, SitsAt, HasFound, IsWorker, IsResting, IsWaiting, AfterTake, AfterLook, AfterAsk};

use crate::board::{ANSWERED, ASKED, ENDED, IDLE, Letter, NOTE_WORD, Place, Words, write_letter};
use crate::plays::{LookForAnswer, LookForClose, PutAsk, PutIdle, TakeSlot};
use octo_asks::{Answer, Ask, Closed};
use std::sync::Wait;
use std::time::Duration;

// How long a worker sleeps at most before it looks again, in milliseconds. Its answer wakes it at once, and the end of the
// host, which is on another word, does not.
const NAP: u64 = 2;

/// What a worker finds while its ask is open.
#[derive(Drop)]
pub enum AskState {
    /// The answer.
    Answered(Answer),
    /// The host has ended and never took the ask, which is withdrawn.
    Withdrawn,
    /// Neither yet.
    Nothing,
}

// Writes the ask into the worker's slot, and asks.
pub(crate) fn put_ask(words: &Words, seat: &mut Place, number: usize, ask: Ask)
    requires table { SitsAt seat.old.table_id words.now.table_id number }
    requires resting { IsWorker number Resting [] seat.old.me }
    ensures table { seat.new.table_id ≡ seat.old.table_id }
    ensures asked { seat.new.me ≡ (at_stage seat.old.me.0 (Waiting ask), []) }
{
    words.load::<TakeSlot>(seat, number + 1);
    write_letter(words, seat, number, Letter::Asked(ask));
    words.store::<PutAsk>(seat, number + 1, ASKED);
}

// The answer in a letter that is one.
fn answer_in(letter: Option<Letter>) -> Answer
    requires { IsSome (answer_in letter) }
    ensures { answer_in letter ≡ Some result }
{
    match letter {
        Some(Letter::Answered(_, answer)) => answer,
        _ => unreachable!(),
    }
}

// Takes the answer out of the worker's slot, and rests.
fn take_answer(words: &Words, seat: &mut Place, number: usize) -> Answer
    requires table { SitsAt seat.old.table_id words.now.table_id number }
    requires found { HasFound number seat.old.me }
    ensures table { seat.new.table_id ≡ seat.old.table_id }
    ensures taken { AfterTake seat.old.me result seat.new.me }
{
    let letter = words.exchange(seat, number, None);
    words.store::<PutIdle>(seat, number + 1, IDLE);
    answer_in(letter)
}

// Looks whether the ask is answered; once the end was seen, an ask that wasn't taken is withdrawn.
fn look_for_answer(words: &Words, seat: &mut Place, number: usize, saw_close: bool) -> AskState
    requires table { SitsAt seat.old.table_id words.now.table_id number }
    requires waiting { (ask : Ask) × IsWaiting number saw_close ask seat.old.me }
    ensures table { seat.new.table_id ≡ seat.old.table_id }
    ensures look { (ask : Ask) → (worker_of seat.old.me.0).stage ≡ Waiting ask
        → AfterLook ask seat.old.me result seat.new.me }
{
    if words.load::<LookForAnswer>(seat, number + 1) == ANSWERED {
        return AskState::Answered(take_answer(words, seat, number));
    }
    if saw_close {
        words.store::<PutIdle>(seat, number + 1, IDLE);
        return AskState::Withdrawn;
    }
    AskState::Nothing
}

// Looks whether the host has ended; what was seen stays.
pub(crate) fn look_for_close(words: &Words, seat: &mut Place, saw_close: bool) -> bool
    requires table { (seat.old.table_id ≡ words.now.table_id) × IsSized words.now.table_id }
    requires worker { seat.old.me
        ≡ (Worker (record (worker_of seat.old.me.0) { saw_close = saw_close }), []) }
    ensures table { seat.new.table_id ≡ seat.old.table_id }
    ensures seen { seat.new.me
        ≡ (Worker (record (worker_of seat.old.me.0) { saw_close = result }), []) }
    ensures stays { saw_close ≡ true → result ≡ true }
{
    if words.load::<LookForClose>(seat, NOTE_WORD) == ENDED {
        return true;
    }
    saw_close
}

// Waits for the answer, or for the end. It sleeps on its word as long as that shows an open ask.
pub(crate) fn wait_for_answer<R: Wait>(
    rt: &R,
    words: &Words,
    seat: &mut Place,
    number: usize,
    saw_close: &mut bool,
) -> Result<Answer, Closed>
    requires table { SitsAt seat.old.table_id words.now.table_id number }
    requires waiting { (ask : Ask) × IsWaiting number saw_close.old ask seat.old.me }
    ensures table { seat.new.table_id ≡ seat.old.table_id }
    ensures resting { IsResting number saw_close.new seat.new.me }
    ensures asked { (ask : Ask) → (worker_of seat.old.me.0).stage ≡ Waiting ask
        → AfterAsk ask (worker_of seat.old.me.0) result (worker_of seat.new.me.0) }
    ensures stays { saw_close.old ≡ true → saw_close.new ≡ true }
{
    for _ in rt.forever() {
        match look_for_answer(words, seat, number, *saw_close) {
            AskState::Answered(answer) => return Ok(answer),
            AskState::Withdrawn => return Err(Closed),
            AskState::Nothing => {}
        }
        *saw_close = look_for_close(words, seat, *saw_close);
        words.park_timeout(rt, number + 1, ASKED as u32, Duration::from_millis(NAP));
    }
    unreachable!()
}
