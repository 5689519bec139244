//! Uploads as clients send them, and bodies at the edges of the rules.
use octo_http_forms::{PartFault, Parts, Span, multipart};
use std::alloc::Global;
use std::process::Abort;
use std::test::Fail;

const FORM: &[u8] = b"multipart/form-data; boundary=XY";

const NONE: Parts = Parts {
    name: None,
    file: None,
    folder: None,
    select: false,
    print: false,
};

const PRINT: Parts = Parts {
    name: None,
    file: None,
    folder: None,
    select: false,
    print: true,
};

const SELECT: Parts = Parts {
    name: None,
    file: None,
    folder: None,
    select: true,
    print: false,
};

// A body or its type, and what it comes to.
type Row = (&'static str, Result<Parts, PartFault>);

// Each body comes to what is on its right.
fn each_body(rt: &impl Abort, rows: &[Row]) {
    for (body, want) in rows {
        assert_eq!(rt; multipart(body.as_bytes(), FORM), *want, "at {body}");
    }
}

// A body of no parts comes, by each type, to what is on the type's right.
fn each_type(rt: &impl Abort, rows: &[Row]) {
    for (kind, want) in rows {
        assert_eq!(rt; multipart(b"--XY--", kind.as_bytes()), *want, "at {kind}");
    }
}

// Cut off before its last delimiter's end, the body of an upload has no closing delimiter.
fn none_closes(rt: &impl Abort, body: &[u8; 142]) {
    for end in 0..138 {
        assert_eq!(rt; multipart(&body[..end], FORM), Err(PartFault::NoClose));
    }
}

// The upload of 142 bytes, whose file holds text like a delimiter within a line.
#[test]
fn upload(rt: HostRuntime) {
    let body =
        b"--XY\r\nContent-Disposition: form-data; name=\"file\"; filename=\"a.gcode\"\r\nContent-Type: application/octet-stream\r\n\r\nG28 ; --XY\r\nG1 X10\n\r\n--XY--\r\n";
    assert_eq!(rt; body.len(), 142);
    let want = Parts {
        name: Some(Span { from: 61, to: 68 }),
        file: Some(Span { from: 113, to: 132 }),
        folder: None,
        select: false,
        print: false,
    };
    assert_eq!(rt; multipart(body, FORM), Ok(want));
    assert_eq!(rt; &body[61..68], b"a.gcode".as_slice());
    assert_eq!(rt; &body[113..132], b"G28 ; --XY\r\nG1 X10\n".as_slice());
    none_closes(&rt, body);
}

// Types with and without a boundary.
#[test]
fn types(rt: HostRuntime) {
    let rows: [Row; 11] = [
        ("multipart/form-data; boundary=XY", Ok(NONE)),
        (
            "Multipart/Form-Data;charset=utf-8; BOUNDARY=\"XY\" ",
            Ok(NONE),
        ),
        ("multipart/form-data; boundary=XY ; a=b", Ok(NONE)),
        (
            "multipart/form-data; x=\"; boundary=ZZ\"; boundary=XY",
            Ok(NONE),
        ),
        ("multipart/form-data; boundary=X", Err(PartFault::NoClose)),
        ("multipart/form-data; boundary=", Err(PartFault::NoBoundary)),
        (
            "multipart/form-data; boundary=\"XY",
            Err(PartFault::NoBoundary),
        ),
        ("multipart/form-data", Err(PartFault::NoBoundary)),
        (
            "multipart/form-database; boundary=XY",
            Err(PartFault::NoBoundary),
        ),
        ("multipart/mixed; boundary=XY", Err(PartFault::NoBoundary)),
        ("", Err(PartFault::NoBoundary)),
    ];
    each_type(&rt, &rows);
}

// Bodies without a closing delimiter, and with parts of no name.
#[test]
fn bodies(rt: HostRuntime) {
    let rows: [Row; 8] = [
        ("", Err(PartFault::NoClose)),
        ("--XY\r\n--XY--", Err(PartFault::NoClose)),
        ("x--XY--", Err(PartFault::NoClose)),
        ("x\n--XY--", Err(PartFault::NoClose)),
        ("text before\r\n--XY-- text after", Ok(NONE)),
        ("--XYZ\r\n\r\n--XY--", Ok(NONE)),
        ("--XY\r\n\r\n--XY--", Err(PartFault::BadPart { at: 6 })),
        (
            "--XY\r\nContent-Disposition: form-data; name=print\r\n\r\n--XY--",
            Err(PartFault::BadPart { at: 6 }),
        ),
    ];
    each_body(&rt, &rows);
}

// Bodies with flags, and with a file that has no name.
#[test]
fn bodies_of_parts(rt: HostRuntime) {
    let rows: [Row; 5] = [
        (
            "--XY \t\r\ncontent-disposition:form-data;name=print\r\n\r\nTrue\r\n--XY--",
            Ok(PRINT),
        ),
        (
            "--XY\r\nContent-Disposition: form-data; NAME=\"select\"\r\n\r\ntrue\r\n--XY\r\nX: y\r\nContent-Disposition: form-data; name=\"print\"\r\nContent-Disposition: form-data; name=\"select\"\r\n\r\nfalse\r\n--XY--",
            Ok(SELECT),
        ),
        (
            "--XY\r\nContent-Disposition: form-data; name=\"file\"\r\n\r\nG28\r\n--XY--",
            Ok(NONE),
        ),
        (
            "--XY\r\nContent-Disposition: attachment; name=\"file\"\r\n\r\nG28\r\n--XY--",
            Err(PartFault::BadPart { at: 6 }),
        ),
        (
            "--XY\r\nContent-Disposition: form-data; filename=\"a\"\r\n\r\nG28\r\n--XY--",
            Err(PartFault::BadPart { at: 6 }),
        ),
    ];
    each_body(&rt, &rows);
}

// A form with this print.
fn prints(alloc: Global, word: &str) -> Result<bool, Fail> {
    let mut body = Vec::from_slice(
        alloc,
        b"--XY\r\nContent-Disposition: form-data; name=\"print\"\r\n\r\n",
    )?;
    body.extend_from_slice(word.as_bytes())?;
    body.extend_from_slice(b"\r\n--XY--")?;
    Ok(multipart(body.as_slice(), FORM)?.print)
}

// The words of a flag, and whether it is true by them. Slic3r sends `1`.
const WORDS: [(&str, bool); 12] = [
    ("true", true),
    ("TRUE", true),
    ("1", true),
    ("yes", true),
    ("Y", true),
    ("On", true),
    ("false", false),
    ("0", false),
    ("", false),
    ("true ", false),
    ("11", false),
    ("o", false),
];

// Each word makes a flag what is beside it.
fn each_word(rt: &impl Abort, alloc: Global, rows: &[(&str, bool)]) -> Result<(), Fail> {
    for (word, wanted) in rows {
        assert!(rt; prints(alloc, *word)? == *wanted, "at {word}");
    }
    Ok(())
}

#[test]
fn words(rt: HostRuntime) -> Result<(), Fail> {
    each_word(&rt, rt.alloc(), &WORDS)
}

// The last file counts, and a filename is taken with its backslashes.
#[test]
fn last_file(rt: HostRuntime) {
    let body =
        b"--XY\r\nContent-Disposition: form-data; name=file; filename=a\r\n\r\n1\r\n--XY\r\nContent-Disposition: form-data; name=file; filename=\"b\\\"; c\"\r\n\r\n22\r\n--XY\r\nContent-Disposition: form-data; name=file\r\n\r\n3\r\n--XY--";
    let parts = multipart(body, FORM);
    assert!(rt; parts.is_ok());
    if let Ok(
        Parts {
            name: Some(name),
            file: Some(file),
            ..
        },
    ) = parts
    {
        assert_eq!(rt; &body[name.from..name.to], b"b\\\"; c".as_slice());
        assert_eq!(rt; &body[file.from..file.to], b"22".as_slice());
    } else {
        assert!(rt; false, "no file");
    }
}
