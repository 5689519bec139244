//! How far a print over a link has come.
ghost use Rattle.std.specs.Prelude.{◌≡◌, ◌+◌, ◌≤◌, length, None};
ghost use Rattle.octo_log_link.specs.Progress.{acknowledged, is_again, is_hosts, line_number, line_text, more, replied_by, sent_by};

use byte_text::{after, digits_in_front, number};
use marlin_reply::Reply;

/// What was sent over a link and acknowledged.
#[derive(Clone, Copy)]
pub struct Tally {
    /// The greatest line number that was sent. The first line of a session sets the number, and has the number 0 itself.
    pub last: Option<u32>,
    /// How many commands of the file were sent, each counted once.
    pub commands: u64,
    /// How many lines of the host's own were sent: the first one, and those that ask for temperatures.
    pub others: u64,
    /// How many lines were sent again.
    pub again: u64,
    /// How many `ok` came.
    pub oks: u64,
    /// How many `Resend` came.
    pub resends: u64,
}

// A count that rises.
fn more(count: u64) -> u64
    ensures { result ≡ more count }
{
    count.saturating_add(1)
}

// The number of a line.
fn line_number(line: &[u8]) -> u32
    ensures { result ≡ line_number line.now }
{
    number(after(line, 1))
}

// The text of a numbered line.
fn line_text(line: &[u8]) -> &[u8]
    ensures { result.now ≡ line_text line.now }
{
    after(line, digits_in_front(after(line, 1)) + 2)
}

// Whether a line with this number was sent before.
fn is_again(last: Option<u32>, number: u32) -> bool
    ensures { result ≡ is_again last number }
{
    match last {
        Some(last) => number <= last,
        None => false,
    }
}

// Whether a text is of the host.
fn is_hosts(text: &[u8]) -> bool
    ensures { result ≡ is_hosts text.now }
{
    text.starts_with(b"M110") || text.starts_with(b"M105")
}

impl Tally {
    /// Nothing was sent yet.
    pub fn new() -> Self
        ensures { result ≡ record {
          last = None;
          commands = 0;
          others = 0;
          again = 0;
          oks = 0;
          resends = 0;
        } }
    {
        Tally {
            last: None,
            commands: 0,
            others: 0,
            again: 0,
            oks: 0,
            resends: 0,
        }
    }

    // Counts a line that was sent.
    pub(crate) fn count_line(&mut self, line: &[u8])
        ensures { self.new ≡ sent_by self.old line.now }
    {
        let number = line_number(line);
        if is_again(self.last, number) {
            self.again = more(self.again);
            return;
        }
        self.last = Some(number);
        if is_hosts(line_text(line)) {
            self.others = more(self.others);
        } else {
            self.commands = more(self.commands);
        }
    }

    // Counts a reply.
    pub(crate) fn count_reply(&mut self, reply: &Reply)
        ensures { self.new ≡ replied_by self.old reply.now }
    {
        match reply {
            Reply::Ok { .. } => self.oks = more(self.oks),
            Reply::Resend { .. } => self.resends = more(self.resends),
            _ => {}
        }
    }

    /// How many of the file's commands are acknowledged.
    pub fn acknowledged(&self) -> u64
        ensures { result ≡ acknowledged self.now }
    {
        let lines = self.oks.saturating_sub(self.resends);
        self.commands.min(lines.saturating_sub(self.others))
    }
}
