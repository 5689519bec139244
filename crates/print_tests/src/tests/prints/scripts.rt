//! A print with a script at each of its points.
use super::*;
use job_desk::Point;

// A script of one line at each point of a print.
const SCRIPTS: [(Point, &str); 4] = [
    (Point::Connected, "M155 S0"),
    (Point::Started, "M107"),
    (Point::Done, "M84"),
    (Point::Disconnect, "M140 S0"),
];

// Each script of a print has its place.
#[test]
fn scripts(rt: HostRuntime) -> Result<(), Fail> {
    let scripts = scripts_of(&rt, rt.alloc(), &SCRIPTS);
    let printed = print(rt.alloc(), scripts, &PLAIN)?;
    let texts = ["M155 S0", "M107", "G28", "M84", "M140 S0"];
    check_print(&rt, &printed, PrintEnd::Done, 6, &texts);
    Ok(())
}
