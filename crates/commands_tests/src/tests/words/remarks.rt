//! What is said of command lines that are no command.
use super::commands::word_list;
use octo_words::{Remark, remark_on};
use std::alloc::Global;
use std::process::Abort;

// What is said of a command line that is none.
fn said(rt: &(impl Abort + Alloc<A = Global>), line: &str) -> Remark {
    let words = word_list(rt, line);
    let remark = remark_on(rt.alloc(), &words).expect(rt, "no memory");
    drop(words);
    remark
}

// What the command line asks for.
fn asked(remark: &Remark) -> Option<&[u8]> {
    match remark {
        Remark::Asked(text) => Some(text.as_slice()),
        Remark::Wrong(_) => None,
    }
}

// What is wrong with it.
fn wrong(remark: &Remark) -> Option<&[u8]> {
    match remark {
        Remark::Asked(_) => None,
        Remark::Wrong(text) => Some(text.as_slice()),
    }
}

fn assert_wrong(rt: &(impl Abort + Alloc<A = Global>), line: &str, wanted: &[u8]) {
    let remark = said(rt, line);
    assert!(rt; wrong(&remark) == Some(wanted), "{line}");
    drop(remark);
}

const WRONG: [(&str, &[u8]); 13] = [
    (
        "print p",
        b"octo: the following required arguments were not provided:  <file>\n",
    ),
    ("begin a", b"octo: unrecognized subcommand 'begin'\n"),
    (
        "check a --fast",
        b"octo: unexpected argument '--fast' found\n",
    ),
    (
        "print p a --turns",
        b"octo: a value is required for '--turns <turns>' but none was supplied\n",
    ),
    (
        "print p a --turns 0",
        b"octo: turns has to be a number from 1 to 4000000000000, not: 0\n",
    ),
    (
        "sure p a --turns 0",
        b"octo: turns has to be a number from 1 to 4000000000000, not: 0\n",
    ),
    (
        "demo 1 2 --lost-replies 2,1",
        b"octo: lost-replies has to be numbers that rise, with commas between, or -, not: 2,1\n",
    ),
    (
        "demo 1 200001",
        b"octo: commands has to be a number from 0 to 200000, not: 200001\n",
    ),
    (
        "demo x y",
        b"octo: seed has to be a number from 0 to 2147483647, not: x\n",
    ),
    (
        "rest a x",
        b"octo: command has to be a number of at most 13 digits, not: x\n",
    ),
    (
        "serve a  d --settings s",
        b"octo: folder has to be a text of 1 to 100 bytes, not: \n",
    ),
    (
        "floor f  --settings s",
        b"octo: database has to be a text of 1 to 100 bytes, not: \n",
    ),
    (
        "floor f d --settings s --turns 0",
        b"octo: turns has to be a number from 1 to 4000000000000, not: 0\n",
    ),
];

#[test]
fn what_is_wrong(rt: HostRuntime) {
    for (line, wanted) in &WRONG {
        assert_wrong(&rt, line, wanted);
    }
}

// A demo whose seed has a thousand digits.
fn long_seed(rt: &(impl Abort + Alloc<A = Global>)) -> String {
    let seed = "0123456789".repeat(rt.alloc(), 100).expect(rt, "no memory");
    let line = format!(in rt.alloc(); "demo {seed} 0").expect(rt, "no memory");
    drop(seed);
    line
}

// What is said of a line is short.
fn assert_short(rt: &(impl Abort + Alloc<A = Global>), line: &str) {
    let remark = said(rt, line);
    assert!(rt; wrong(&remark).expect(rt, "asked").len() < 300);
    drop(remark);
}

// An argument's control bytes aren't shown, and its end isn't if it is long.
#[test]
fn odd_arguments(rt: HostRuntime) {
    let shown = b"octo: seed has to be a number from 0 to 2147483647, not: x[31my\n";
    assert_wrong(&rt, "demo x\n\u{1b}[31my 0", shown);
    let line = long_seed(&rt);
    assert_short(&rt, line.as_str());
    drop(line);
}

const HELP: [&str; 6] = [
    "--help",
    "-h",
    "help",
    "help print",
    "print --help",
    "print -h",
];

fn assert_help(rt: &(impl Abort + Alloc<A = Global>), line: &str) {
    let remark = said(rt, line);
    assert!(rt; asked(&remark).unwrap_or(&[]) != b"".as_slice(), "{line}");
    drop(remark);
}

fn assert_version(rt: &(impl Abort + Alloc<A = Global>), line: &str) {
    let remark = said(rt, line);
    assert!(rt; asked(&remark) == Some(b"octo 1\n".as_slice()), "{line}");
    drop(remark);
}

#[test]
fn help_and_version(rt: HostRuntime) {
    for line in &HELP {
        assert_help(&rt, line);
    }
    assert_version(&rt, "--version");
    assert_version(&rt, "-V");
}
