//! How far a print has come, in words.
ghost use Rattle.std.specs.Prelude.{◌≡◌, ◌<◌, ◌≤◌, ◌+◌, ◌++◌, length, decimal};
ghost use Rattle.arrayvec.specs.ArrayVec.{array_vec_len};
ghost use Rattle.octo_log_link.specs.Progress.{acknowledged_words, count_words, sent_words, percent, percent_words, total_words, left_of, left_words, temps_words, progress_words, tenth_of};
ghost use Rattle.octo_log.specs.declared.line.TheConstants.{MOST_LOG_BYTES};

use crate::shown::Words;
use crate::tally::Tally;
use byte_text::{append, append_decimal};

// Adds a number in decimal.
fn append_count(words: &mut Words, number: u64)
    requires { array_vec_len words.old ≤ 400 }
    ensures items { words.new.items ≡ words.old.items ++ decimal number }
    ensures few { array_vec_len words.new ≤ array_vec_len words.old + 20 }
{
    append_decimal(words, number);
}

// Which part of a number of commands is acknowledged, in hundredths.
fn percent(total: u32, done: u64) -> u64
    ensures { result ≡ percent total done }
{
    if total == 0 {
        return 100;
    }
    let total = u64::from(total);
    done.min(total) * 100 / total
}

// How many tenths of a number of commands are acknowledged, if it is known.
pub(crate) fn tenth_of(total: Option<u32>, done: u64) -> u64
    ensures { result ≡ tenth_of total done }
{
    match total {
        Some(total) => percent(total, done) / 10,
        None => 0,
    }
}

// Adds that part, if the number is known.
fn append_percent(words: &mut Words, total: Option<u32>, done: u64)
    requires { array_vec_len words.old ≤ 100 }
    ensures items { words.new.items ≡ words.old.items ++ percent_words total done }
    ensures few { array_vec_len words.new ≤ array_vec_len words.old + 23 }
{
    if let Some(total) = total {
        append_count(words, percent(total, done));
        append(words, b"%, ");
    }
}

// Adds the number of commands, if it is known.
fn append_total(words: &mut Words, total: Option<u32>)
    requires { array_vec_len words.old ≤ 100 }
    ensures items { words.new.items ≡ words.old.items ++ total_words total }
    ensures few { array_vec_len words.new ≤ array_vec_len words.old + 24 }
{
    if let Some(total) = total {
        append(words, b" of ");
        append_count(words, u64::from(total));
    }
}

// The seconds that are left if the print goes on as fast as it did.
fn left_of(total: u32, seconds: u64, done: u64) -> u64
    ensures { result ≡ left_of total seconds done }
{
    if done == 0 {
        return 0;
    }
    seconds.saturating_mul(u64::from(total).saturating_sub(done)) / done
}

// Adds these seconds, if the number of commands is known.
fn append_left(words: &mut Words, total: Option<u32>, seconds: u64, done: u64)
    requires { array_vec_len words.old ≤ 300 }
    ensures items { words.new.items ≡ words.old.items ++ left_words total seconds done }
    ensures few { array_vec_len words.new ≤ array_vec_len words.old + 29 }
{
    if let Some(total) = total {
        append(words, b", ");
        append_count(words, left_of(total, seconds, done));
        append(words, b" s left");
    }
}

// Adds the temperatures, if there are any.
fn append_temps(words: &mut Words, temps: &[u8])
    requires room { array_vec_len words.old ≤ 350 }
    requires short { length temps.now ≤ 60 }
    ensures items { words.new.items ≡ words.old.items ++ temps_words temps.now }
    ensures few { array_vec_len words.new ≤ array_vec_len words.old + 62 }
{
    if !temps.is_empty() {
        append(words, b", ");
        append(words, temps);
    }
}

// Adds how many commands were sent.
fn append_sent(words: &mut Words, total: Option<u32>, commands: u64)
    requires { array_vec_len words.old ≤ 30 }
    ensures items { words.new.items ≡ words.old.items ++ sent_words total commands }
    ensures few { array_vec_len words.new ≤ array_vec_len words.old + 60 }
{
    append_count(words, commands);
    append_total(words, total);
    append(words, b" sent, ");
}

// Adds how many commands are acknowledged, and how many lines were sent again.
fn append_acknowledged(words: &mut Words, done: u64, again: u64)
    requires { array_vec_len words.old ≤ 90 }
    ensures items { words.new.items ≡ words.old.items ++ acknowledged_words done again }
    ensures few { array_vec_len words.new ≤ array_vec_len words.old + 70 }
{
    append_count(words, done);
    append(words, b" acknowledged, ");
    append_count(words, again);
    append(words, b" again, ");
}

// Adds how many commands were sent and acknowledged, and how many lines were sent again.
fn append_counts(words: &mut Words, total: Option<u32>, tally: &Tally)
    requires { array_vec_len words.old ≤ 30 }
    ensures items { words.new.items ≡ words.old.items ++ count_words total tally.now }
    ensures few { array_vec_len words.new ≤ array_vec_len words.old + 150 }
{
    append_sent(words, total, tally.commands);
    append_acknowledged(words, tally.acknowledged(), tally.again);
}

// How far a print has come after these seconds, of this number of commands if it is known.
pub(crate) fn progress_words(total: Option<u32>, seconds: u64, tally: &Tally, temps: &[u8]) -> Words
    requires { length temps.now ≤ 60 }
    ensures words { result.items ≡ progress_words total seconds tally.now temps.now }
    ensures short { length result.items < MOST_LOG_BYTES }
{
    let done = tally.acknowledged();
    let mut words = Words::new();
    append_percent(&mut words, total, done);
    append_counts(&mut words, total, tally);
    append_count(&mut words, seconds);
    append(&mut words, b" s");
    append_left(&mut words, total, seconds, done);
    append_temps(&mut words, temps);
    words
}
