//! What the adapters over TCP share.
ghost use Rattle.std.specs.Prelude.{◌≡◌, ◌<◌, ◌≤◌, ◌↔◌, ◌⊎◌, length, take, IfSome, IsNone, IsTrue};
ghost use Rattle.std.specs.Io.KnownBytes.{Appends, Keeps};
ghost use Rattle.std.specs.IoError.{error_kind};

use std::io;
use std::io::{ErrorKind, Read, Write};
use std::net::{OpenStream, Shutdown};
use std::time::{Clock, Duration, Instant};

// How long one call of a stream waits, in milliseconds.
const WAIT: u64 = 10;

// How long a stream that is given back drops input, in milliseconds, and how many reads that takes at most.
const LINGER: u64 = 50;

const LAST_READS: u32 = 4096;

// How much of it a read drops at most.
const CHUNK: usize = 4096;

// How often a write that would block is tried.
const TRIES: u32 = 1000;

/// Readies a stream: what is written goes out at once, and a read or a write waits for about 10 milliseconds at most. Fails if the stream
/// refuses one of these settings.
pub fn prepare<S: OpenStream>(stream: &S) -> io::Result<()> {
    let wait = Some(Duration::from_millis(WAIT));
    stream.set_nodelay(true)?;
    stream.set_read_timeout(wait)?;
    stream.set_write_timeout(wait)
}

/// Whether the call of a stream may be made again: it would have waited for longer than is allowed, or a signal
/// ended it.
pub fn may_come_later(error: &io::Error) -> bool
    ensures { IsTrue result
        ↔ (error_kind error.now ≡ ErrorKind.WouldBlock)
        ⊎ (error_kind error.now ≡ ErrorKind.TimedOut)
        ⊎ (error_kind error.now ≡ ErrorKind.Interrupted) }
{
    matches!(
        error.kind(),
        ErrorKind::WouldBlock | ErrorKind::TimedOut | ErrorKind::Interrupted
    )
}

/// Writes 1 to all of the bytes, a prefix. A write that would block is tried 1,000 times; nothing then, and if the
/// stream failed.
#[tactic(auto, using(crate::proofs::Written::keeps_self, crate::proofs::Written::keeps_then, crate::proofs::Written::keeps_appends, crate::proofs::Written::appends_none))]
pub fn write_some<S: Write>(stream: &mut S, bytes: &[u8]) -> Option<usize>
    ensures some { IfSome result (λ n. 0 < n) }
    ensures bound { IfSome result (λ n. n ≤ length bytes.now) }
    ensures written { IfSome result
        (λ n. Appends (S.Write.contents stream.old) (S.Write.contents stream.new)
        (take n bytes.now)) }
    ensures none { IsNone result
        → Keeps (S.Write.contents stream.old) (S.Write.contents stream.new) }
{
    for _ in 0..TRIES {
        match stream.write(bytes) {
            Ok(n) => return if n > 0 { Some(n) } else { None },
            Err(error) => {
                if !may_come_later(&error) {
                    return None;
                }
            }
        }
    }
    None
}

// Drops what the next read returns. Returns how many bytes, or `None` if no more can come.
fn drop_some<S: Read>(stream: &mut S) -> Option<usize> {
    let mut chunk = [0; CHUNK];
    match stream.read(&mut chunk) {
        Ok(0) => None,
        Ok(n) => Some(n),
        Err(error) if may_come_later(&error) => Some(0),
        Err(_) => None,
    }
}

/// Gives back a stream that was readied: shuts its writing side, and drops input until the peer closes,
/// for about 50 milliseconds at most. Returns how many bytes it dropped.
///
/// The system answers input after a close by a reset, and a peer that is reset may lose what it hasn't read yet.
pub fn linger<R: Clock, S: Read + OpenStream>(rt: &R, stream: &mut S) -> usize {
    let mut dropped: usize = 0;
    let _ = stream.shutdown(Shutdown::Write);
    let Ok(start) = Instant::now(rt) else {
        return dropped;
    };
    for _ in 0..LAST_READS {
        match start.elapsed(rt) {
            Ok(gone) if gone < Duration::from_millis(LINGER) => {}
            _ => return dropped,
        }
        match drop_some(stream) {
            Some(n) => dropped = dropped.saturating_add(n),
            None => return dropped,
        }
    }
    dropped
}
