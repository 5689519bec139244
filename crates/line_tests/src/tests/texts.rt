//! Sums, numbers, marks and letters of short texts.
use byte_text::{
    Name, after, has_byte, has_m110, leading_digits, number, number_in, same_text, split_at_last,
    whole_number, xor,
};

#[test]
fn sums(rt: HostRuntime) {
    assert_eq!(rt; xor(b""), 0);
    assert_eq!(rt; xor(b"N0 M110 N0"), 125);
    assert_eq!(rt; xor(b"N1 G28"), 18);
    assert_eq!(rt; xor(b"N2 G1 X10"), 83);
}

#[test]
fn numbers_at_the_front(rt: HostRuntime) {
    assert_eq!(rt; number(b""), 0);
    assert_eq!(rt; number(b"x7"), 0);
    assert_eq!(rt; number(b"0125 G28"), 125);
    assert_eq!(rt; number(b"4294967295"), 4_294_967_295);
    assert_eq!(rt; number(b"4294967296"), 4_294_967_295);
    assert_eq!(rt; number(b"99999999999999999999"), 4_294_967_295);
    assert!(rt; leading_digits(b"28*22") == b"28".as_slice());
}

#[test]
fn whole_texts(rt: HostRuntime) {
    for (text, want) in [
        ("", None),
        ("+5", None),
        ("5x", None),
        ("-1", None),
        ("0", Some(0)),
        ("0005", Some(5)),
        ("9999999999999", Some(9_999_999_999_999)),
        ("10000000000000", None),
    ] {
        assert!(rt; whole_number(text, 13) == want);
    }
}

#[test]
fn whole_texts_of_32_bits(rt: HostRuntime) {
    for (text, want) in [
        ("", None),
        ("0000000007", Some(7)),
        ("00000000007", None),
        ("4294967295", Some(4_294_967_295)),
        ("4294967296", None),
    ] {
        assert!(rt; number_in(text) == want);
    }
}

// Whether the last star of a text is between these two.
fn is_split(text: &[u8], before: &[u8], after: &[u8]) -> bool {
    match split_at_last(text, b'*') {
        Some(parts) => parts.0 == before && parts.1 == after,
        None => false,
    }
}

#[test]
fn marks_in_a_line(rt: HostRuntime) {
    assert!(rt; has_m110(b"N0 M110 N0"));
    assert!(rt; has_m110(b"M1110M1101"));
    assert!(rt; !has_m110(b"M11 0"));
    assert!(rt; has_byte(b"G28*22", b'*'));
    assert!(rt; !has_byte(b"G28", b'*'));
    assert!(rt; split_at_last(b"G28", b'*').is_none());
    assert!(rt; is_split(b"G28*1*22", b"G28*1", b"22"));
}

#[test]
fn letters_in_any_case(rt: HostRuntime) {
    assert!(rt; same_text(b"Expect-9", b"eXPECT-9"));
    assert!(rt; !same_text(b"Expect", b"Expect-"));
    assert!(rt; !same_text(b"@", b"`"));
}

#[test]
fn names(rt: HostRuntime) {
    let name = Name::of_short("ana");
    assert_eq!(rt; name.as_str(), "ana");
    assert!(rt; name.copy().is(&name));
    assert!(rt; !name.is(&Name::new()));
    let other = Name::of_short("anb");
    assert!(rt; name.is_before(&other));
    assert!(rt; !other.is_before(&name));
    assert!(rt; !name.is_before(&name));
}

#[test]
fn parts_of_bytes(rt: HostRuntime) {
    assert!(rt; after(b"N12 G28", 4) == b"G28".as_slice());
    assert!(rt; after(b"N1", 2).is_empty());
    assert!(rt; after(b"N1", 3).is_empty());
}
