//! Paths, and what they are about. scripts/process/api/routes.txt has the others.
use octo_api_routes::{Direct, Routes, Target, target_of};
use std::alloc::Global;
use std::test::Fail;

// Whether this is the file of that name.
fn is_file(target: Option<Target>, wanted: &str) -> bool {
    match target {
        Some(Target::File { name }) => name.as_str() == wanted,
        _ => false,
    }
}

// Whether this is the entry of that name, of that user.
fn is_entry_of(target: Option<Target>, whose: &str, wanted: &str) -> bool {
    match target {
        Some(Target::OthersEntry { user, name }) => {
            user.as_str() == whose && name.as_str() == wanted
        }
        _ => false,
    }
}

// Whether the one path is that of a file, and the other that of an entry.
fn finds_both(alloc: Global, routes: &Routes) -> Result<(bool, bool), Direct> {
    let file = is_file(
        target_of(alloc, routes, b"/api/files/local/%61.gcode")?,
        "a.gcode",
    );
    let entry = target_of(alloc, routes, b"/api/queue/ana/job-1")?;
    Ok((file, is_entry_of(entry, "ana", "job-1")))
}

// The same by a table made for these two paths.
fn finds_by_one_table(alloc: Global) -> Result<(bool, bool), Direct> {
    let routes = Routes::new(alloc)?;
    finds_both(alloc, &routes)
}

// The calls that take memory, each once; the second path is looked for in the same table.
#[test]
fn ample(rt: HostRuntime) -> Result<(), Fail> {
    let found = finds_by_one_table(rt.alloc())?;
    assert_eq!(rt; found, (true, true));
    Ok(())
}
