//! The plan of a simulation, as the arguments name it.
ghost use Rattle.std.specs.Prelude.{◌≡◌, ◌≤◌, Some, length, map, IfOk, IfSome};
ghost use Rattle.std.specs.List.{slice_split};
ghost use Rattle.marlin_sim.specs.Plan.{place_in, count_in, is_comma, places_above, places_in, is_address, plan_with, plan_by, plan_of, IsPlan};

use byte_text::number_in;
use octo_outside::{CallList, WordList};
use std::alloc::{AllocError, Global};

/// What the printer does with a connection.
#[derive(Drop)]
pub struct SimPlan {
    /// Its last line number at the beginning.
    pub last: u32,
    /// Its buffer slots: how many lines it keeps waiting, 1 to 16.
    pub slots: u8,
    /// The received lines, counted from 1, that don't arrive.
    pub drop: CallList,
    /// The received lines that arrive with another last digit.
    pub corrupt: CallList,
    /// Whether an acknowledgement names its line, as with `ADVANCED_OK`.
    pub numbered: bool,
    /// The replies, counted from 1 after `start`, that aren't written.
    pub lost: CallList,
    /// For how many reads the connection is served.
    pub turns: u64,
}

// For how many reads the program serves a connection.
const TURNS: u64 = 4_000_000_000_000;

// The number of a received line that a text is, if it is above this one.
fn place_in(least: u32, word: &str) -> Option<u32>
    ensures { result ≡ place_in least word.now }
{
    match number_in(word) {
        Some(place) if place > least => Some(place),
        _ => None,
    }
}

// The numbers of received lines that texts are, each above the one before.
fn listed_places(alloc: Global, pieces: &[&str]) -> Result<Option<CallList>, AllocError>
    ensures { IfOk result (λ places. places ≡ places_above 0 (map (λ p. p.now) pieces.now)) }
{
    let mut places = CallList::new(alloc);
    let mut least = 0;
    for piece in pieces {
        let Some(place) = place_in(least, piece) else {
            return Ok(None);
        };
        places.push(u64::from(place))?;
        least = place;
    }
    Ok(Some(places))
}

// What is between the commas of an argument.
fn pieces_of(alloc: Global, word: &str) -> Result<Vec<&str>, AllocError>
    ensures { IfOk result (λ pieces. map (λ p. p.now) pieces.items
        ≡ slice_split is_comma word.now) }
{
    word.split(',').collect(alloc)
}

// The received lines that an argument lists: none for a dash.
pub(crate) fn read_places(alloc: Global, word: &str) -> Result<Option<CallList>, AllocError>
    ensures { IfOk result (λ places. places ≡ places_in word.now) }
{
    if word == "-" {
        return Ok(Some(CallList::new(alloc)));
    }
    let pieces = pieces_of(alloc, word)?;
    listed_places(alloc, pieces.as_slice())
}

// How many lines the printer keeps waiting.
pub(crate) fn read_count(word: &str) -> Option<u8>
    ensures { result ≡ count_in word.now }
{
    match number_in(word) {
        Some(slots) if slots >= 1 && slots <= 16 => Some(slots as u8),
        _ => None,
    }
}

// The plan of its numbers, of two arguments that list lines, those to drop and those to corrupt, and of its acknowledgements.
fn plan_with(
    alloc: Global,
    last: u32,
    slots: u8,
    drop: &str,
    corrupt: &str,
    numbered: bool,
    lost: CallList,
) -> Result<Option<SimPlan>, AllocError>
    ensures { IfOk result (λ plan. plan
        ≡ plan_with (Some last) (Some slots) (places_in drop.now) (places_in corrupt.now)
        numbered (Some lost)) }
{
    let Some(drop) = read_places(alloc, drop)? else {
        return Ok(None);
    };
    let Some(corrupt) = read_places(alloc, corrupt)? else {
        return Ok(None);
    };
    Ok(Some(SimPlan {
        last,
        slots,
        drop,
        corrupt,
        numbered,
        lost,
        turns: TURNS,
    }))
}

// The plan of the first five arguments, with such acknowledgements.
fn plan_by(
    alloc: Global,
    words: &WordList,
    numbered: bool,
    lost: CallList,
) -> Result<Option<SimPlan>, AllocError>
    requires { 5 ≤ length words.now }
    ensures { IfOk result (λ plan. plan ≡ plan_by numbered (Some lost) words.now) }
{
    if !is_address(words.get(0)) {
        return Ok(None);
    }
    let Some(last) = number_in(words.get(1)) else {
        return Ok(None);
    };
    let Some(slots) = read_count(words.get(2)) else {
        return Ok(None);
    };
    plan_with(
        alloc,
        last,
        slots,
        words.get(3),
        words.get(4),
        numbered,
        lost,
    )
}

// The plan that the arguments are.
#[tactic(auto, using(crate::proofs::Places::of_five, crate::proofs::Places::of_six, crate::proofs::Places::of_six_none, crate::proofs::Places::of_others))]
fn plan_in(alloc: Global, words: &WordList) -> Result<Option<SimPlan>, AllocError>
    ensures { IfOk result (λ plan. plan ≡ plan_of words.now) }
{
    if words.count() == 5 {
        return plan_by(alloc, words, false, CallList::new(alloc));
    }
    if words.count() != 6 {
        return Ok(None);
    }
    let Some(lost) = read_places(alloc, words.get(5))? else {
        return Ok(None);
    };
    plan_by(alloc, words, true, lost)
}

// Whether an argument may be an address: 1 to 100 bytes.
pub(crate) fn is_address(word: &str) -> bool
    ensures { result ≡ is_address word.now }
{
    word.len() >= 1 && word.len() <= 100
}

/// The plan that the arguments are, `ADDRESS LAST SLOTS DROP GARBLE [LOST]`; `None` if they are no plan. Fails if out of memory.
pub fn read_plan(alloc: Global, words: &WordList) -> Result<Option<SimPlan>, AllocError>
    ensures value { IfOk result (λ plan. plan ≡ plan_of words.now) }
    ensures plan { IfOk result (λ plan. IfSome plan IsPlan) }
{
    plan_in(alloc, words)
}
