//! Hosts over doors, a link, a keeper and a shelf in memory, the ends at which their workers hand over asks, and all commands.
mod bench;
mod commands;
mod doors;
mod ends;
mod gate_conn;
mod gate_door;
mod handing;
mod hosts;
mod late_door;
mod real_rests;
mod starts;

use bench::Bench;
use doors::{end_doors, gates, has_served, has_status, reply_at};

const VERSION: &[u8] = b"GET /api/version HTTP/1.1\r\nX-Api-Key: root-key-0123456789\r\n\r\n";

const SHUTDOWN: &[u8] =
    b"POST /api/system/commands/core/shutdown HTTP/1.1\r\nX-Api-Key: root-key-0123456789\r\nContent-Length: 0\r\n\r\n";
