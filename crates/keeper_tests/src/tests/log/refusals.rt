//! Which refusals a door with a log tells, and what of them.
ghost use Rattle.std.specs.Prelude.{IfOk};
ghost use Rattle.octo_outside_doors.specs.Memory.{IsUntouched};

use super::new_log;
use octo_log::LoggedDoor;
use octo_outside::{CallList, Conn, MemoryConn, MemorySink, send_all};
use octo_outside_doors::{ConnList, Door, Knock, MemoryDoor};
use std::alloc::{AllocError, Global};
use std::process::Abort;

type TestDoor = LoggedDoor<MemoryDoor, MemorySink>;

fn new_conn(alloc: Global, input: &[u8]) -> Result<MemoryConn, AllocError>
    ensures { IfOk result IsUntouched }
{
    MemoryConn::new(alloc, input, CallList::new(alloc), CallList::new(alloc))
}

// A door at which one message comes.
fn door_of(alloc: Global, asked: &[u8]) -> Result<TestDoor, AllocError> {
    let mut conns = ConnList::new(alloc);
    conns.push(new_conn(alloc, asked)?)?;
    let door = MemoryDoor::new(alloc, conns, CallList::new(alloc), CallList::new(alloc));
    Ok(LoggedDoor::new(door, new_log(alloc)))
}

// Accepts a connection, reads its message, and replies.
fn reply(door: &mut TestDoor, head: &[u8], body: &[u8]) {
    if let Ok(Knock::Conn(mut conn)) = door.accept() {
        let _ = conn.read(&mut [0; 200]);
        let _ = send_all(&mut conn, head);
        let _ = send_all(&mut conn, body);
        door.finish(conn);
    }
}

// A message, the head and the body of its reply, and the line of the log.
const ROWS: [(&str, &str, &str, &str); 6] = [
    (
        "POST /api/files/local HTTP/1.1\r\nX-Api-Key: secret\r\n\r\n",
        "HTTP/1.1 415 Unsupported Media Type\r\n\r\n",
        "{\"error\":\"BadMedia\"}",
        "refused: 415 POST /api/files/local: {\"error\":\"BadMedia\"}\n",
    ),
    (
        "GET /api/printer?apikey=secret HTTP/1.1\r\n\r\n",
        "HTTP/1.1 403 Forbidden\r\n\r\n",
        "",
        "refused: 403 GET /api/printer\n",
    ),
    (
        "GET /api/printer HTTP/1.1\r\n\r\n",
        "HTTP/1.1 409 Conflict\r\n\r\n",
        "{}",
        "",
    ),
    (
        "POST /api/job HTTP/1.1\r\n\r\n",
        "HTTP/1.1 204 No Content\r\n\r\n",
        "",
        "",
    ),
    (
        "X-Api-Key: secret\r\n\r\n",
        "HTTP/1.1 400 Bad Request\r\n\r\n",
        "",
        "refused: 400 no HTTP\n",
    ),
    (
        "GET /\x1b[31m HTTP/1.1\r\n\r\n",
        "HTTP/1.1 507 Insufficient Storage\r\n\r\n",
        "",
        "refused: 507 GET /\n",
    ),
];

// What the log gets of a message with this reply.
fn check_row(rt: &impl Abort, alloc: Global, asked: &str, head: &str, body: &str, wanted: &str) {
    let mut door = door_of(alloc, asked.as_bytes()).expect(rt, "no memory");
    reply(&mut door, head.as_bytes(), body.as_bytes());
    assert_eq!(rt; door.log().written(), Some(wanted.as_bytes()));
}

#[test]
fn logged_refusals(rt: HostRuntime) {
    let alloc = rt.alloc();
    for (asked, head, body, wanted) in ROWS {
        check_row(&rt, alloc, asked, head, body, wanted);
    }
}
