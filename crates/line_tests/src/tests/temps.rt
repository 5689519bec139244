//! Commands that heat, against limits of 250 for the tool and 110 for the bed.
use gcode_lines::read_commands;
use std::process::Abort;
use std::test::Fail;
use temp_rules::{HotLine, Limits, Targets, TooHot, check, first_hot};

const LIMITS: Limits = Limits {
    tool: 250,
    bed: 110,
};

fn passes(rt: &impl Abort, text: &[u8]) {
    assert_eq!(rt; check(text, &LIMITS), Ok(()));
}

fn too_hot(rt: &impl Abort, text: &[u8], asked: u64, limit: u16) {
    assert_eq!(rt; check(text, &LIMITS), Err(TooHot { asked, limit }));
}

#[test]
fn tool(rt: HostRuntime) {
    passes(&rt, b"M104 S250");
    too_hot(&rt, b"M104 S250.1", 251, 250);
    too_hot(&rt, b"M104 S250.000001", 251, 250);
    passes(&rt, b"M104 S250.0000009");
    too_hot(&rt, b"M109 R260", 260, 250);
    passes(&rt, b"M104 R260");
    too_hot(&rt, b"m109 s300 r400", 300, 250);
    too_hot(&rt, b"M109 S200 R255.5 S300", 256, 250);
    too_hot(&rt, b"M104.7 S251", 251, 250);
    passes(&rt, b"M109 S");
    passes(&rt, b"M104 S-300");
    passes(&rt, b"G1 M104 S300");
    passes(&rt, b"M105 S300");
    passes(&rt, b"M117 heat to M104 S300");
}

#[test]
fn bed(rt: HostRuntime) {
    passes(&rt, b"M140 S110");
    too_hot(&rt, b"M140 S111", 111, 110);
    too_hot(&rt, b"M190 R120", 120, 110);
    passes(&rt, b"M140 R120");
    passes(&rt, b"M104 S111");
}

#[test]
fn the_first_hot_line(rt: HostRuntime) -> Result<(), Fail> {
    let job = read_commands(rt.alloc(), b"; top\nG28\nM104 S250\nM109 R260\nM190 S200\n")?;
    assert_eq!(rt;
        first_hot(&job, &LIMITS),
        Some(HotLine {
            line: 4,
            asked: 260,
            limit: 250
        })
    );
    let cool = read_commands(rt.alloc(), b"G28\nM109 S250\nM190 S110\n")?;
    assert_eq!(rt; first_hot(&cool, &LIMITS), None);
    Ok(())
}

#[test]
fn targets(rt: HostRuntime) {
    let mut targets = Targets::new();
    assert_eq!(rt; (targets.tool(), targets.bed()), (0, 0));
    targets.see(b"M201 X500 Y500");
    targets.see(b"M109 S215");
    targets.see(b"G1 X10.5 E0.02");
    assert_eq!(rt; (targets.tool(), targets.bed()), (215, 0));
    targets.see(b"M140 S59.5");
    targets.see(b"M104 S-5");
    targets.see(b"M109 S200 R215.2");
    assert_eq!(rt; (targets.tool(), targets.bed()), (216, 60));
}
