//! A modelled Marlin printer as a program: it serves one connection, or a board's device again and again, and prints what it executed.
#![tactic(auto)]

mod absent;
mod board;
mod cuts;
mod end;
mod help;
mod lines;
mod plan;
mod replies;
mod serve;
mod signed;
mod sim;
mod simulate;
#[cfg(test)]
mod tests;

use absent::AbsentConn;
use board::{device_link, run_board};
use end::SimEnd;
use help::{USAGE, asked_text, wrong_argument};
use octo_outside::{ArgumentsFault, StdSink, WordList, arguments};
use octo_outside_sockets::TcpConn;
use plan::read_plan;
use simulate::sim;
use std::process::ExitCode;

// The first connection at the address of a plan, if the arguments are one and the program can listen there.
fn connection(rt: HostRuntime, words: &WordList) -> Option<TcpConn<HostRuntime>> {
    read_plan(rt.alloc(), words).ok()??;
    if words.count() == 0 {
        return None;
    }
    TcpConn::accept_one(rt, words.get(0)).ok()
}

// Serves the connection at the address that the arguments name, and returns it.
fn serve_words(rt: HostRuntime, words: &WordList) -> SimEnd {
    let mut out = StdSink::new(rt);
    match connection(rt, words) {
        Some(mut conn) => {
            let end = sim(rt.alloc(), words, &mut conn, &mut out);
            conn.finish();
            end
        }
        None => sim(rt.alloc(), words, &mut AbsentConn::new(), &mut out),
    }
}

// Serves a board's device, if the arguments are a plan whose address is a board's; `None` if they aren't.
fn serve_device(rt: HostRuntime, words: &WordList) -> Option<SimEnd> {
    read_plan(rt.alloc(), words).ok()??;
    if words.count() == 0 {
        return None;
    }
    let link = device_link(words.get(0))?;
    match run_board(&rt, rt.alloc(), link, words) {
        Ok(true) => Some(SimEnd::Done),
        _ => Some(SimEnd::ConnFailed),
    }
}

// Serves at the address that the arguments name.
fn serve_address(rt: HostRuntime, words: &WordList) -> SimEnd {
    match serve_device(rt, words) {
        Some(end) => end,
        None => serve_words(rt, words),
    }
}

// What standard error says of an end, if anything.
fn complaint_of(end: SimEnd) -> Option<&'static str> {
    match end {
        SimEnd::Done => None,
        SimEnd::BadPlan => Some(USAGE),
        SimEnd::ConnFailed => {
            Some("marlin_sim: it can't listen at the address, or the connection failed")
        }
        SimEnd::SinkFailed => Some("marlin_sim: the output failed"),
        SimEnd::TurnsUsed { .. } => Some("marlin_sim: the turns are used up"),
        SimEnd::NoMemory => Some("marlin_sim: out of memory"),
    }
}

// Prints the help or the version.
fn print_asked(rt: HostRuntime, text: &str) -> SimEnd {
    match print!(rt; "{text}") {
        Ok(()) => SimEnd::Done,
        Err(_) => SimEnd::SinkFailed,
    }
}

// Serves what the arguments name. If they are no plan, standard error says why.
fn carry_out(rt: HostRuntime, words: &WordList) -> SimEnd {
    if let Some(text) = asked_text(words) {
        return print_asked(rt, text);
    }
    let end = serve_address(rt, words);
    if end == SimEnd::BadPlan {
        let _ = eprintln!(rt; "marlin_sim: {}", wrong_argument(rt.alloc(), words));
    }
    end
}

fn main(rt: HostRuntime) -> ExitCode {
    let end = match arguments(&rt) {
        Ok(words) => carry_out(rt, &words),
        Err(ArgumentsFault::NotText) => {
            let _ = eprintln!(rt; "marlin_sim: an argument isn't UTF-8");
            SimEnd::BadPlan
        }
        Err(ArgumentsFault::NoMemory) => SimEnd::NoMemory,
    };
    if let Some(complaint) = complaint_of(end) {
        let _ = eprintln!(rt; "{complaint}");
    }
    ExitCode::from(end.code())
}
