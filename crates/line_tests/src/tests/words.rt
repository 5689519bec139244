//! Numbers and words of G-code lines, each with what it says.
use gcode_words::{CodeWord, read_number, words};
use std::process::Abort;

fn number(rt: &impl Abort, text: &[u8], micro: i64, rest: &[u8]) {
    match read_number(text) {
        Some(read) => {
            assert_eq!(rt; read.micro, micro);
            assert_eq!(rt; read.rest.len(), rest.len());
        }
        None => panic!(rt; "no number"),
    }
}

fn no_number(rt: &impl Abort, text: &[u8]) {
    assert!(rt; read_number(text).is_none());
}

fn word(letter: u8, micro: i64) -> Option<CodeWord> {
    Some(CodeWord {
        letter,
        micro: Some(micro),
    })
}

fn bare(letter: u8) -> Option<CodeWord> {
    Some(CodeWord {
        letter,
        micro: None,
    })
}

#[test]
fn numbers(rt: HostRuntime) {
    number(&rt, b"0", 0, b"");
    number(&rt, b"10.5 ", 10_500_000, b" ");
    number(&rt, b"-3.25", -3_250_000, b"");
    number(&rt, b"+1.5/", 1_500_000, b"/");
    number(&rt, b"2.X", 2_000_000, b"X");
    number(&rt, b".5", 500_000, b"");
    number(&rt, b"-.000001", -1, b"");
    number(&rt, b"1.2.3", 1_200_000, b".3");
    number(&rt, b"5E3", 5_000_000, b"E3");
}

#[test]
fn decimals_past_the_sixth(rt: HostRuntime) {
    number(&rt, b"0.0000019", 1, b"");
    number(&rt, b"-0.9999999", -999_999, b"");
    number(&rt, b"0.1234567", 123_456, b"");
}

#[test]
fn the_greatest_whole_part(rt: HostRuntime) {
    number(&rt, b"9000000000000.999999", 9_000_000_000_000_999_999, b"");
    number(&rt, b"9000000000001.5", 9_000_000_000_000_000_000, b"");
    number(
        &rt,
        b"-99999999999999999999999.5",
        -9_000_000_000_000_000_000,
        b"",
    );
}

#[test]
fn no_numbers(rt: HostRuntime) {
    no_number(&rt, b"");
    no_number(&rt, b"-");
    no_number(&rt, b"+.");
    no_number(&rt, b"x1");
    no_number(&rt, b"--1");
    no_number(&rt, b" 1");
}

#[test]
fn words_of_a_line(rt: HostRuntime) {
    let mut found = words(b"G1 X10.5e-2 y .5 Z\tT#7q");
    assert_eq!(rt; found.next(), word(b'G', 1_000_000));
    assert_eq!(rt; found.next(), word(b'X', 10_500_000));
    assert_eq!(rt; found.next(), word(b'E', -2_000_000));
    assert_eq!(rt; found.next(), bare(b'Y'));
    assert_eq!(rt; found.next(), bare(b'Z'));
    assert_eq!(rt; found.next(), bare(b'T'));
    assert_eq!(rt; found.next(), bare(b'Q'));
    assert_eq!(rt; found.next(), None);
    assert_eq!(rt; found.next(), None);
}
