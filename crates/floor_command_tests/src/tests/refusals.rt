//! Arguments and settings that are refused.
use super::bench::{PART, SETTINGS, WORDS, run};
use super::objects::Fault;
use std::alloc::Global;
use std::process::Abort;
use std::sync::Wait;
use std::thread::Threads;

#[test]
fn refused_arguments(rt: HostRuntime) {
    let words = ["floor", "f", "d"];
    let bench = run(&rt, rt.alloc(), &words, SETTINGS, PART, Fault::Nothing);
    bench.assert_ended(&rt, 2, false, "octo: bad words\n");
    bench.end();
}

#[test]
fn unread_settings(rt: HostRuntime) {
    let bench = run(&rt, rt.alloc(), WORDS, SETTINGS, PART, Fault::Source(1));
    bench.assert_ended(&rt, 4, false, "source failed\n");
    bench.end();
}

// These settings are refused with this text.
fn assert_refused<R: Threads + Wait + Clone + Send + Sync + Drop + Abort>(
    rt: &R,
    alloc: Global,
    settings: &str,
    text: &str,
) {
    let bench = run(rt, alloc, WORDS, settings, PART, Fault::Nothing);
    bench.assert_ended(rt, 7, false, text);
    bench.end();
}

// All other keys come first.
#[test]
fn settings_of_no_floor(rt: HostRuntime) {
    assert_refused(&rt, rt.alloc(), "ports", "settings: not toml\n");
    assert_refused(
        &rt,
        rt.alloc(),
        "[floor]\n",
        "settings: printer.ports: missing\n",
    );
}

const NO_FLOOR: &str =
    "[printer]\nports = [\"p\"]\n[admin]\nname = \"root\"\nkey_sha256 = \"470dc872b1b47dac8456c9f0800583d1176d1a2f194b626000379d1d7d7fc920\"\n";

const ONE_PORT: &str =
    "[printer]\nports = [\"p\"]\n[admin]\nname = \"root\"\nkey_sha256 = \"470dc872b1b47dac8456c9f0800583d1176d1a2f194b626000379d1d7d7fc920\"\n[floor]\nports = [\"p\"]\nmaterials = [\"PLA\"]\n";

const NINE_PORTS: &str =
    "[printer]\nports = [\"p\"]\n[admin]\nname = \"root\"\nkey_sha256 = \"470dc872b1b47dac8456c9f0800583d1176d1a2f194b626000379d1d7d7fc920\"\n[floor]\nports = [\"1\", \"2\", \"3\", \"4\", \"5\", \"6\", \"7\", \"8\", \"9\"]\nmaterials = [\"PLA\", \"PLA\", \"PLA\", \"PLA\", \"PLA\", \"PLA\", \"PLA\", \"PLA\", \"PLA\"]\n";

#[test]
fn refused_ports(rt: HostRuntime) {
    let alloc = rt.alloc();
    assert_refused(&rt, alloc, NO_FLOOR, "settings: floor.ports: missing\n");
    assert_refused(
        &rt,
        alloc,
        ONE_PORT,
        "settings: floor.ports: out of range\n",
    );
    assert_refused(
        &rt,
        alloc,
        NINE_PORTS,
        "settings: floor.ports: out of range\n",
    );
}

const UNEQUAL: &str =
    "[printer]\nports = [\"p\"]\n[admin]\nname = \"root\"\nkey_sha256 = \"470dc872b1b47dac8456c9f0800583d1176d1a2f194b626000379d1d7d7fc920\"\n[floor]\nports = [\"p\", \"q\"]\nmaterials = [\"PLA\", \"PLA\", \"PLA\"]\n";

const NO_NAME: &str =
    "[printer]\nports = [\"p\"]\n[admin]\nname = \"root\"\nkey_sha256 = \"470dc872b1b47dac8456c9f0800583d1176d1a2f194b626000379d1d7d7fc920\"\n[floor]\nports = [\"p\", \"q\"]\nmaterials = [\"PLA\", \"P LA\"]\n";

#[test]
fn refused_materials(rt: HostRuntime) {
    let alloc = rt.alloc();
    assert_refused(
        &rt,
        alloc,
        UNEQUAL,
        "settings: floor.materials: out of range\n",
    );
    assert_refused(
        &rt,
        alloc,
        NO_NAME,
        "settings: floor.materials: out of range\n",
    );
}
