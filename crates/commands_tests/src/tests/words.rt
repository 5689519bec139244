//! Command lines, each a text whose arguments are separated by spaces.
mod commands;
mod remarks;

use commands::{asks, read, text_read};
use octo_words::WordsFault;
use std::alloc::Global;
use std::process::Abort;

// The line is read as this command.
fn assert_command(rt: &(impl Abort + Alloc<A = Global>), line: &str, wanted: &str) {
    let command = read(rt, line);
    let text = text_read(rt.alloc(), &command).expect(rt, "no memory");
    drop(command);
    assert!(rt; text.as_str() == wanted, "{line}: {text}");
    drop(text);
}

// Each line is read as the command on its right.
fn reads(rt: &(impl Abort + Alloc<A = Global>), rows: &[(&str, &str)]) {
    for (line, wanted) in rows {
        assert_command(rt, line, wanted);
    }
}

fn is_refused(rt: &(impl Abort + Alloc<A = Global>), line: &str) -> bool {
    read(rt, line).err() == Some(WordsFault::BadWords)
}

// Each line is no command.
fn refuses(rt: &(impl Abort + Alloc<A = Global>), lines: &[&str]) {
    for line in lines {
        assert!(rt; is_refused(rt, line), "{line}");
    }
}

#[test]
fn ample(rt: HostRuntime) {
    assert_command(&rt, "measure a", "measure a");
}

const ANYWHERE: [(&str, &str); 18] = [
    ("print p a", "print p a 1000000000 none"),
    ("print p a --turns 5", "print p a 5 none"),
    ("print --turns=5 p a", "print p a 5 none"),
    ("print p --turns=5 a", "print p a 5 none"),
    ("print p a --turns=5", "print p a 5 none"),
    ("print p a --settings s", "print p a 1000000000 s"),
    ("print --settings s --turns 7 p a", "print p a 7 s"),
    ("print p --progress a", "print p a 1000000000 none"),
    ("sure p a", "sure p a 1000000000 none"),
    ("sure --settings s --turns 7 p a", "sure p a 7 s"),
    ("check a", "check a none"),
    ("check --settings=s a", "check a s"),
    ("check a --settings s", "check a s"),
    ("serve a f d --settings s", "serve a f d s"),
    ("serve --settings=s a f d", "serve a f d s"),
    ("serve a f --settings s d", "serve a f d s"),
    ("floor f d --settings s", "floor f d s 1000000000"),
    ("floor --turns=5 f --settings=s d", "floor f d s 5"),
];

#[test]
fn options_anywhere(rt: HostRuntime) {
    reads(&rt, &ANYWHERE);
}

// Which commands ask for a print's progress.
const PROGRESS: [(&str, bool); 4] = [
    ("print p a", false),
    ("print --progress p a --turns 5", true),
    ("print p -- --progress", false),
    ("check a", false),
];

#[test]
fn progress_asked(rt: HostRuntime) {
    for (line, want) in &PROGRESS {
        assert!(rt; asks(&rt, line) == Ok(*want), "{line}");
    }
}

const HYPHENS: [(&str, &str); 14] = [
    ("print p a --settings -", "print p a 1000000000 -"),
    ("print p a --settings=-s", "print p a 1000000000 -s"),
    ("print p a --settings=a=b", "print p a 1000000000 a=b"),
    ("print p -", "print p - 1000000000 none"),
    ("print p -- -x", "print p -x 1000000000 none"),
    ("print p -- --turns", "print p --turns 1000000000 none"),
    ("print p a --", "print p a 1000000000 none"),
    ("print help help", "print help help 1000000000 none"),
    ("print p a --settings=", "print p a 1000000000 "),
    ("print p ", "print p  1000000000 none"),
    ("serve - f d --settings=-s", "serve - f d -s"),
    ("serve --settings s -- -a -f -d", "serve -a -f -d s"),
    ("serve a f d --settings=", "serve a f d "),
    ("floor --settings s -- -f -d", "floor -f -d s 1000000000"),
];

#[test]
fn hyphens_taken(rt: HostRuntime) {
    reads(&rt, &HYPHENS);
}

const ENDS: [(&str, &str); 10] = [
    ("print p a --turns 1", "print p a 1 none"),
    ("print p a --turns 0000000000001", "print p a 1 none"),
    (
        "print p a --turns 4000000000000",
        "print p a 4000000000000 none",
    ),
    ("demo 0 0", "demo 0 0"),
    ("demo 2147483647 200000", "demo 2147483647 200000"),
    ("demo 1 2 --lost-replies 3", "demo 1 2 1 up to 3"),
    (
        "demo --lost-replies=1,3,4294967295 1 2",
        "demo 1 2 3 up to 4294967295",
    ),
    ("demo 1 2 --lost-replies -", "demo 1 2 0 up to 0"),
    ("rest a 0", "rest a 0"),
    ("rest a 9999999999999", "rest a 9999999999999"),
];

#[test]
fn ends_of_ranges(rt: HostRuntime) {
    reads(&rt, &ENDS);
}

const OUT_OF_RANGES: [&str; 21] = [
    "print p a --turns 0",
    "print p a --turns 4000000000001",
    "print p a --turns 00000000000001",
    "print p a --turns=",
    "print p a --turns 5x",
    "print p a --turns +5",
    "print  a",
    "demo 2147483648 0",
    "demo 0 200001",
    "demo x 0",
    "demo 1 ",
    "demo 1 2 --lost-replies 0",
    "demo 1 2 --lost-replies 3,3",
    "demo 1 2 --lost-replies 3,2",
    "demo 1 2 --lost-replies 3,",
    "demo 1 2 --lost-replies=",
    "demo 1 2 --lost-replies 4294967296",
    "sure p a --turns 0",
    "sure  a",
    "rest a 10000000000000",
    "rest a x",
];

#[test]
fn out_of_ranges(rt: HostRuntime) {
    refuses(&rt, &OUT_OF_RANGES);
}

const OPTIONS_REFUSED: [&str; 30] = [
    "print p a --turns=5 --turns=6",
    "print p a --turns 5 --turns 5",
    "print p a --settings s --settings s",
    "print p a --progress --progress",
    "print p a --progress=yes",
    "check a --progress",
    "sure p a --progress",
    "demo 1 2 --lost-replies",
    "demo 1 2 --lost-replies 1 --lost-replies 2",
    "print p a --lost-replies 1",
    "print p a --turns -5",
    "print p a --settings -s",
    "print p a --turns",
    "print p -x",
    "print p a --speed 5",
    "print p a -t 5",
    "--turns 5 print p a",
    "check a --turns 5",
    "demo 1 -5",
    "measure a --settings s",
    "serve a f d",
    "serve a f d --settings",
    "serve a f d --settings -s",
    "serve a f d --settings s --settings s",
    "serve a f d --settings s --turns 5",
    "--settings s serve a f d",
    "floor f d",
    "floor f d --settings s --settings s",
    "floor f d --settings s --turns 0",
    "floor f d --settings s --turns 4000000000001",
];

#[test]
fn options_refused(rt: HostRuntime) {
    refuses(&rt, &OPTIONS_REFUSED);
}

const OPERANDS_REFUSED: [&str; 33] = [
    "",
    "print",
    "print p",
    "print p a b",
    "sure p",
    "sure p a b",
    "check",
    "check a b",
    "demo 1",
    "demo 1 2 3",
    "measure",
    "rest a",
    "serve",
    "serve a f --settings s",
    "serve a f d e --settings s",
    "serve  f d --settings s",
    "serve a  d --settings s",
    "serve a f  --settings s",
    "floor",
    "floor f --settings s",
    "floor f d e --settings s",
    "floor  d --settings s",
    "floor f  --settings s",
    "-- print p a",
    "print -- p a --turns=5",
    "Print p a",
    "begin a",
    "--help",
    "-h",
    "help",
    "-V",
    "print --help",
    "print -h",
];

#[test]
fn operands_refused(rt: HostRuntime) {
    refuses(&rt, &OPERANDS_REFUSED);
}

// A name of 100 bytes.
const LONGEST: &str = "0123456789012345678901234567890123456789012345678901234567890123456789\
012345678901234567890123456789";

// The longest name between these texts is taken.
fn takes_longest(rt: &(impl Abort + Alloc<A = Global>), before: &str, after: &str) {
    let line = format!(in rt.alloc(); "{before} {LONGEST} {after}").expect(rt, "no memory");
    let command = read(rt, line.as_str());
    drop(line);
    assert!(rt; command.is_ok(), "{before}");
    drop(command);
}

#[test]
fn longest_port(rt: HostRuntime) {
    takes_longest(&rt, "print", "a");
}

#[test]
fn longest_operands(rt: HostRuntime) {
    let after = format!(in rt.alloc(); "{LONGEST} {LONGEST} --settings s").expect(&rt, "no memory");
    takes_longest(&rt, "serve", after.as_str());
    drop(after);
}

// A name of 101 bytes between these texts is refused.
fn refuses_longer(rt: &(impl Abort + Alloc<A = Global>), before: &str, after: &str) {
    let line = format!(in rt.alloc(); "{before} {LONGEST}x{after}").expect(rt, "no memory");
    assert!(rt; is_refused(rt, line.as_str()), "{before}");
    drop(line);
}

const LONGER: [(&str, &str); 6] = [
    ("print", " a"),
    ("serve", " f d --settings s"),
    ("serve a", " d --settings s"),
    ("serve a f", " --settings s"),
    ("floor", " d --settings s"),
    ("floor f", " --settings s"),
];

#[test]
fn longer_names(rt: HostRuntime) {
    for (before, after) in &LONGER {
        refuses_longer(&rt, before, after);
    }
}
