//! Reads HTTP messages from connections in memory, and prints what they say.
//!
//! Without arguments these are messages that common clients sent (data/, made by scripts/lib/record_clients.py). With `FILE` it is the one
//! that this file holds. `FILE parts` prints the parts of its form too, and with `FILE bytes` each read returns one byte.
#![tactic(auto)]

mod form;
mod message;

use form::print_form;
use message::{print_message, read_bytes, read_whole};
use octo_outside::{WordList, arguments};
use std::fs;

// The recorded messages, by client and request.
const NAMES: [&str; 11] = [
    "curl_get",
    "curl_post",
    "curl_upload",
    "curl_chunks",
    "wget_get",
    "wget_post",
    "http_client_post",
    "http_client_chunks",
    "urllib_post",
    "fetch_post",
    "fetch_upload",
];

// Reads a recorded message and prints what it says, with the parts of its form.
fn show_recorded(rt: HostRuntime, name: &str) -> anyhow::Result<()> {
    let file = format!(in rt.alloc(); "{name}.http")?;
    let input = fs::read(&rt, file.as_str())?;
    let message = read_whole(rt.alloc(), input.as_slice())?;
    print_message(rt, name, &message)?;
    print_form(rt, &message)
}

// Reads each recorded message and prints what it says.
fn show_all(rt: HostRuntime) -> anyhow::Result<()> {
    for name in NAMES {
        show_recorded(rt, name)?;
    }
    Ok(())
}

// Reads the message of a file and prints what it says.
fn show_file(rt: HostRuntime, file: &str) -> anyhow::Result<()> {
    let input = fs::read(&rt, file)?;
    let message = read_whole(rt.alloc(), input.as_slice())?;
    print_message(rt, file, &message)
}

// Reads the message of a file and prints what it says, with the parts of its form.
fn show_parts(rt: HostRuntime, file: &str) -> anyhow::Result<()> {
    let input = fs::read(&rt, file)?;
    let message = read_whole(rt.alloc(), input.as_slice())?;
    print_message(rt, file, &message)?;
    print_form(rt, &message)
}

// Reads the message of a file byte by byte and prints what it says.
fn show_bytes(rt: HostRuntime, file: &str) -> anyhow::Result<()> {
    let input = fs::read(&rt, file)?;
    let message = read_bytes(rt.alloc(), input.as_slice())?;
    print_message(rt, file, &message)
}

// Does what the arguments say.
fn show(rt: HostRuntime, words: &WordList) -> anyhow::Result<()> {
    match words.count() {
        0 => show_all(rt),
        1 => show_file(rt, words.get(0)),
        2 if words.get(1) == "parts" => show_parts(rt, words.get(0)),
        2 if words.get(1) == "bytes" => show_bytes(rt, words.get(0)),
        _ => Err(anyhow::anyhow!("usage: client_messages [FILE [parts|bytes]]")),
    }
}

fn main(rt: HostRuntime) -> anyhow::Result<()> {
    match arguments(&rt) {
        Ok(words) => show(rt, &words),
        Err(_) => Err(anyhow::anyhow!("the arguments aren't text, or memory ran out")),
    }
}
