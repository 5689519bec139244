//! The table that the four workers and the house share.
//! The note word says whether the host runs. Word w + 1 is the word of worker w, and slot w is its slot.
ghost use Rattle.std.specs.Prelude.{◌≡◌, ◌∷◌, Option, Some};
ghost use Rattle.atomic_table.specs.Table.{rest};
ghost use Rattle.octo_serve.specs.declared.board.Letter.{Letter};

use atomic_table::{Seat, Shared, Table, TableRule};
use job_desk::Note;
use octo_asks::{Answer, Ask, Entry, Given};
use std::alloc::Global;

// How many workers there are. They are numbered from 0.
pub(crate) const WORKERS: u8 = 4;

// How many slots there are, one for each worker.
pub(crate) const SLOTS: usize = WORKERS as usize;

// The word that says whether the host runs.
pub(crate) const NOTE_WORD: usize = 0;

// The note word while the host runs.
pub(crate) const RUNS: u64 = 0;

// The note word once the host has ended.
pub(crate) const ENDED: u64 = 1;

// The word of a worker that has no ask open.
pub(crate) const IDLE: u64 = 0;

// The word of a worker whose ask is in its slot, or with the house.
pub(crate) const ASKED: u64 = 1;

// The word of a worker whose answer is in its slot.
pub(crate) const ANSWERED: u64 = 2;

/// What a slot holds, and what the house says of a turn.
#[derive(Drop)]
pub enum Letter {
    Asked(Ask),
    Answered(u64, Answer),
    Noted(Note),
    /// What it answered to its own ask, and when.
    Own(u64, Answer),
}

/// Where a worker is with its ask. No value of it is made.
pub enum Stage {
    /// It asks nothing, and its slot is at home.
    Resting,
    /// It has its slot, to write an ask.
    Writing,
    /// Its ask is open.
    Waiting(Ask),
    /// It has its slot, with the answer.
    Found(Ask, u64, Answer),
    /// It saw the end, and then that its ask was never taken.
    Withdrawn(Ask),
}

/// What a worker knows. No value of it is made.
pub struct WorkerView {
    pub number: u64,
    /// Its finished calls. A clause reads an array as a list, of any length.
    pub mine: [Entry; 0],
    pub stage: Stage,
    pub saw_close: bool,
}

/// What the house knows. No value of it is made.
pub struct HouseView {
    pub history: [Entry; 0],
    /// The ask that it took and hasn't answered.
    pub taken: Option<Given>,
    pub closed: bool,
    /// How many workers' seats were made.
    pub made: u64,
    /// Whose words it loaded, with what it found.
    pub looked: [(u64, u64); 0],
    /// The finished calls of the workers that were joined, in the order of their numbers.
    pub joined: [[Entry; 0]; 0],
}

/// What a seat at the table knows. No value of it is made.
pub enum View {
    House(HouseView),
    Worker(WorkerView),
    /// It was joined.
    Spent,
}

/// The rule of the table.
pub struct HandOver;

impl TableRule<Option<Letter>, View, ()> for HandOver {
    ghost use Rattle.octo_serve.specs.declared.board.View.TheVariants.{House};
    ghost use Rattle.octo_serve.specs.Views.{new_house};
    ghost use Rattle.octo_serve.specs.Rule.{Kept};

    ghost holds = { λ _. Kept };

    ghost first = { λ _. House new_house };
}

// The table, which one of its ends keeps alive.
pub(crate) type Board = Table<Option<Letter>, View, (), HandOver, Global>;

// The words and slots of a table.
pub(crate) type Words = Shared<Option<Letter>, View, (), HandOver>;

// A place at a table: what its end knows, and the slots that it has taken.
pub(crate) type Place = Seat<Option<Letter>, View>;

// Writes a letter into the slot that the seat took last.
pub(crate) fn write_letter(words: &Words, seat: &mut Place, slot: usize, letter: Letter)
    requires table { seat.old.table_id ≡ words.now.table_id }
    requires taken { (held : Option Letter)
        × (seat.old.me.1 ≡ (slot, held) ∷ rest seat.old.me.1) }
    ensures table { seat.new.table_id ≡ seat.old.table_id }
    ensures written { seat.new.me ≡ (seat.old.me.0, (slot, Some letter) ∷ rest seat.old.me.1) }
{
    words.exchange(seat, slot, Some(letter));
}
