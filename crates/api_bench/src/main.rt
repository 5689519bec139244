//! Makes replies of the REST API, or reads its requests, again and again, for bench/api.sh.
//!
//! Without arguments it does so once for each kind. With `reply KIND COUNT` it makes COUNT replies, each from an answer of its
//! own, and prints how many bytes their bodies have in all. With `request KIND COUNT` it reads COUNT messages, each made
//! anew, by one table of routes, and prints how many of them are requests.
#![tactic(auto)]

mod answers;
mod messages;

use answers::answer_of;
use byte_text::whole_number;
use messages::{Pattern, is_request, pattern_of};
use octo_api_replies::to_bytes;
use octo_api_routes::Routes;
use octo_outside::{WordList, arguments};
use std::alloc::Global;

// The kinds of replies.
const REPLIES: [&str; 10] = [
    "accepted",
    "version",
    "connection",
    "printer",
    "job",
    "files_10",
    "files_100",
    "files_1000",
    "entries_10",
    "wrong_state",
];

// The kinds of messages.
const REQUESTS: [&str; 12] = [
    "get_job",
    "download",
    "no_route",
    "pause",
    "heat",
    "put_entry",
    "lines_2",
    "lines_16",
    "lines_256",
    "upload_120",
    "upload_1920",
    "upload_30720",
];

// Makes a reply of a kind, and returns how many bytes its body has.
fn make_reply(alloc: Global, kind: &str) -> anyhow::Result<usize> {
    let answer = answer_of(alloc, kind)?;
    let reply = to_bytes(alloc, answer)?;
    Ok(reply.body.len())
}

// Makes `count` replies of a kind, and returns how many bytes their bodies have.
fn make_replies(alloc: Global, kind: &str, count: u64) -> anyhow::Result<u64> {
    let mut bytes: u64 = 0;
    for _ in 0..count {
        bytes = bytes.wrapping_add(make_reply(alloc, kind)? as u64);
    }
    Ok(bytes)
}

// Reads `count` messages of a pattern by a table of routes, and returns how many are requests.
fn count_requests(
    alloc: Global,
    routes: &Routes,
    pattern: &Pattern,
    count: u64,
) -> anyhow::Result<u64> {
    let mut requests: u64 = 0;
    for _ in 0..count {
        if is_request(alloc, routes, pattern)? {
            requests = requests.wrapping_add(1);
        }
    }
    Ok(requests)
}

// Reads `count` messages of a pattern, and returns how many are requests.
fn read_messages(alloc: Global, pattern: &Pattern, count: u64) -> anyhow::Result<u64> {
    let routes = Routes::new(alloc)?;
    count_requests(alloc, &routes, pattern, count)
}

// Reads `count` messages of a kind, and returns how many are requests.
fn read_requests(alloc: Global, kind: &str, count: u64) -> anyhow::Result<u64> {
    let pattern = pattern_of(alloc, kind)?;
    read_messages(alloc, &pattern, count)
}

// Makes `count` replies of a kind.
fn show_replies(rt: HostRuntime, kind: &str, count: u64) -> anyhow::Result<()> {
    let bytes = make_replies(rt.alloc(), kind, count)?;
    println!(rt; "reply {kind}: {bytes}")?;
    Ok(())
}

// Reads `count` messages of a kind.
fn show_requests(rt: HostRuntime, kind: &str, count: u64) -> anyhow::Result<()> {
    let requests = read_requests(rt.alloc(), kind, count)?;
    println!(rt; "request {kind}: {requests}")?;
    Ok(())
}

// Makes a reply of each kind.
fn show_each_reply(rt: HostRuntime) -> anyhow::Result<()> {
    for kind in &REPLIES {
        show_replies(rt, kind, 1)?;
    }
    Ok(())
}

// Reads a message of each kind.
fn show_each_request(rt: HostRuntime) -> anyhow::Result<()> {
    for kind in &REQUESTS {
        show_requests(rt, kind, 1)?;
    }
    Ok(())
}

// Does what three words say.
fn run(rt: HostRuntime, what: &str, kind: &str, count: &str) -> anyhow::Result<()> {
    let Some(count) = whole_number(count, 9) else {
        return Err(anyhow::anyhow!("not a count"));
    };
    match what {
        "reply" => show_replies(rt, kind, count),
        "request" => show_requests(rt, kind, count),
        _ => Err(anyhow::anyhow!("neither reply nor request")),
    }
}

// Does what the arguments say.
fn show(rt: HostRuntime, words: &WordList) -> anyhow::Result<()> {
    match words.count() {
        0 => {
            show_each_reply(rt)?;
            show_each_request(rt)
        }
        3 => run(rt, words.get(0), words.get(1), words.get(2)),
        _ => Err(anyhow::anyhow!("usage: api_bench [reply|request KIND COUNT]")),
    }
}

fn main(rt: HostRuntime) -> anyhow::Result<()> {
    match arguments(&rt) {
        Ok(words) => show(rt, &words),
        Err(_) => Err(anyhow::anyhow!("the arguments aren't text, or memory ran out")),
    }
}
