//! Which texts are names of files.
use octo_access::{is_file_name, is_gcode, read_file_name};
use std::process::Abort;
use std::test::Fail;

fn are_names(rt: &impl Abort, texts: &[&str], so: bool) {
    for text in texts.iter() {
        assert!(rt; is_file_name(text) == so);
        assert!(rt; read_file_name(text).is_some() == so);
    }
}

#[test]
fn names(rt: HostRuntime) -> Result<(), Fail> {
    let texts = ["b.gcode", "A.GCO", "a.g", "part-1_(2)+x.Gcode", "a.gcode.g"];
    are_names(&rt, &texts, true);
    Ok(())
}

#[test]
fn no_names(rt: HostRuntime) -> Result<(), Fail> {
    let texts = [
        "",
        ".g",
        ".a.gcode",
        "a",
        "agcode",
        "a.txt",
        "a.gcode.part",
        "a b.g",
        "../a.g",
    ];
    are_names(&rt, &texts, false);
    Ok(())
}

// An ending alone isn't enough for a name, but is looked for in any text.
#[test]
fn endings(rt: HostRuntime) -> Result<(), Fail> {
    assert!(rt; is_gcode(b"two words.G"));
    assert!(rt; is_gcode(b".gco"));
    assert!(rt; !is_gcode(b"gco"));
    Ok(())
}
