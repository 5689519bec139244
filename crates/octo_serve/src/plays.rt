//! What is learned by each step on the table.
ghost use Rattle.octo_serve.specs.declared.board.View.TheVariants.{Spent};
ghost use Rattle.octo_serve.specs.Steps.{slot_taken, ask_put, answer_looked_for, idle_put, close_looked_for, worker_looked_at, answer_put, note_put, close_put, learnt, house_left, worker_right, joined_with};

use crate::board::{Letter, View};
use atomic_table::{Join, Play, Split};

// A worker takes its slot.
pub(crate) struct TakeSlot;

impl Play<Option<Letter>, View> for TakeSlot {
    ghost then = { slot_taken };
}

// A worker asks.
pub(crate) struct PutAsk;

impl Play<Option<Letter>, View> for PutAsk {
    ghost then = { ask_put };
}

// A worker looks at its own word.
pub(crate) struct LookForAnswer;

impl Play<Option<Letter>, View> for LookForAnswer {
    ghost then = { answer_looked_for };
}

// A worker rests again.
pub(crate) struct PutIdle;

impl Play<Option<Letter>, View> for PutIdle {
    ghost then = { idle_put };
}

// A worker looks at the note word.
pub(crate) struct LookForClose;

impl Play<Option<Letter>, View> for LookForClose {
    ghost then = { close_looked_for };
}

// The house looks at a worker's word.
pub(crate) struct LookForAsk;

impl Play<Option<Letter>, View> for LookForAsk {
    ghost then = { worker_looked_at };
}

// The house answers.
pub(crate) struct PutAnswer;

impl Play<Option<Letter>, View> for PutAnswer {
    ghost then = { answer_put };
}

// The house notes a turn, or what it answered to its own ask.
pub(crate) struct PutNote;

impl Play<Option<Letter>, View> for PutNote {
    ghost then = { note_put };
}

// The house ends.
pub(crate) struct PutClose;

impl Play<Option<Letter>, View> for PutClose {
    ghost then = { close_put };
}

// The house learns what the rule says of the workers that were joined.
pub(crate) struct Learn;

impl Play<Option<Letter>, View> for Learn {
    ghost then = { learnt };
}

// A worker's seat is made.
pub(crate) struct MakeSeat;

impl Split<View> for MakeSeat {
    ghost left = { house_left };

    ghost right = { worker_right };
}

// A worker's seat is joined to the house's.
pub(crate) struct TakeBack;

impl Join<View> for TakeBack {
    ghost both = { joined_with };

    ghost spent = { Spent };
}
