//! A worker at a door in memory: doors, connections and hosts that fail, and files that are staged. scripts/process/api/worker.txt
//! has what a peer sees.
ghost use Rattle.std.specs.Prelude.{None, All, IfOk};
ghost use Rattle.octo_asks.specs.Place.{no_place};
ghost use Rattle.octo_outside_doors.specs.Memory.{IsUntouched};

mod origins;
mod staging;

use super::conn_of;
use byte_text::Name;
use octo_access::GroupNames;
use octo_api_routes::Routes;
use octo_api_worker::{Terms, serve_conn, worker};
use octo_asks::{Answer, Ask, Asker, Closed, Request};
use octo_keeper::NoStager;
use octo_outside::{CallList, MemoryConn, NameList, calls_of};
use octo_outside_doors::{ConnList, MemoryDoor};
use std::alloc::{AllocError, Global};
use std::process::Abort;
use std::sync::Wait;
use std::test::Fail;

// An asker whose host ends after a number of asks; it counts those that were answered, and those with which a worker left.
#[derive(Drop)]
struct Host {
    open_for: u32,
    answered: u32,
    left: u32,
    saw_close: bool,
}

impl Host {
    fn open_for(asks: u32) -> Host {
        Host {
            open_for: asks,
            answered: 0,
            left: 0,
            saw_close: false,
        }
    }
}

// Three reads may be quiet, and no page of another origin may read replies.
fn terms(alloc: Global) -> Terms {
    Terms {
        patience: 3,
        origins: NameList::new(alloc),
    }
}

// What the host answers to a request.
fn answer_to(request: &Request) -> Answer {
    match request {
        Request::Version => Answer::Version,
        Request::PutFile { name, .. } => Answer::Uploaded {
            name: name.copy(),
            select: false,
            print: false,
        },
        Request::Caller => Answer::Caller {
            name: Some(Name::of_short("ana")),
            groups: GroupNames::new(),
        },
        Request::Leave => Answer::Accepted,
        _ => Answer::NoFile,
    }
}

// How many leaves a request is: one or none.
fn leaves(request: &Request) -> u32 {
    match request {
        Request::Leave => 1,
        _ => 0,
    }
}

impl Asker for Host {
    ghost state = { λ h. record { place = no_place; mine = None; saw_close = h.saw_close } };

    fn ask(&mut self, ask: Ask) -> Result<Answer, Closed> {
        if self.open_for == 0 {
            self.saw_close = true;
            return Err(Closed);
        }
        self.open_for -= 1;
        self.answered = self.answered.wrapping_add(1);
        self.left = self.left.wrapping_add(leaves(&ask.request));
        Ok(answer_to(&ask.request))
    }

    fn closed(&mut self) -> bool {
        self.saw_close
    }
}

const VERSION: &[u8] = b"GET /api/version HTTP/1.1\r\nHost: a\r\n\r\n";

const VERSION_REPLY: &[u8] = b"HTTP/1.1 200 OK\r\nConnection: close\r\nContent-Length: 63\r\n\
Content-Type: application/json\r\n\r\n\
{\"api\":\"0.1\",\"server\":\"profile-1\",\"text\":\"OctoPrint profile-1\"}";

// An upload that waits for `100 Continue` before it sends its body.
const UPLOAD: &[u8] = b"POST /api/files/local HTTP/1.1\r\nExpect: 100-continue\r\n\
Content-Type: multipart/form-data; boundary=XY\r\nContent-Length: 142\r\n\r\n\
--XY\r\nContent-Disposition: form-data; name=\"file\"; filename=\"a.gcode\"\r\n\
Content-Type: application/octet-stream\r\n\r\nG28 ; --XY\r\nG1 X10\n\r\n--XY--\r\n";

// `100 Continue`, and the reply.
const UPLOAD_REPLY: &[u8] = b"HTTP/1.1 100 Continue\r\n\r\n\
HTTP/1.1 201 Created\r\nConnection: close\r\nContent-Length: 131\r\n\
Content-Type: application/json\r\nLocation: /api/files/local/a.gcode\r\n\r\n\
{\"done\":true,\"effectivePrint\":false,\"effectiveSelect\":false,\"files\":{\"local\":\
{\"name\":\"a.gcode\",\"origin\":\"local\",\"path\":\"a.gcode\"}}}";

// A door that never fails, at which these connections arrive.
fn door_of(alloc: Global, conns: ConnList) -> MemoryDoor
    requires { All IsUntouched conns }
{
    MemoryDoor::new(alloc, conns, CallList::new(alloc), CallList::new(alloc))
}

// One more connection with this input.
fn with_conn(alloc: Global, conns: ConnList, input: &[u8]) -> Result<ConnList, AllocError>
    requires { All IsUntouched conns }
    ensures { IfOk result (λ all. All IsUntouched all) }
{
    let mut conns = conns;
    conns.push(conn_of(alloc, input)?)?;
    Ok(conns)
}

// The statuses of the replies at a door, in order; none for a connection without one.
fn statuses(alloc: Global, door: &MemoryDoor) -> Result<Vec<u8>, AllocError> {
    let mut texts = Vec::new(alloc);
    for conn in door.served().unwrap_or(&[]) {
        let written = conn.written().unwrap_or(b"");
        texts.extend_from_slice(written.get(9..12).unwrap_or(b"-"))?;
        texts.push(b' ')?;
    }
    Ok(texts)
}

// Whether the door of a worker with this host held. Nothing is staged.
fn works_at(
    rt: &(impl Wait + Abort),
    alloc: Global,
    door: &mut MemoryDoor,
    host: &mut Host,
) -> Result<bool, AllocError> {
    let routes = Routes::new(alloc)?;
    let (stager, terms) = (&mut NoStager::new(0), terms(alloc));
    Ok(worker(rt, alloc, &routes, door, host, stager, &terms))
}

// Whether the door of a worker with this host held, and the statuses of the replies at it.
fn left_by(
    rt: &(impl Wait + Abort),
    alloc: Global,
    door: MemoryDoor,
    host: &mut Host,
) -> Result<(bool, Vec<u8>), AllocError> {
    let mut door = door;
    let holds = works_at(rt, alloc, &mut door, host)?;
    Ok((holds, statuses(alloc, &door)?))
}

// A worker with this host says whether its door held. It leaves replies of these statuses, a number of answered asks, and the
// number that it left with.
fn works(
    rt: &(impl Wait + Abort),
    alloc: Global,
    door: MemoryDoor,
    host: Host,
    wanted: (bool, &[u8], (u32, u32)),
) -> Result<(), Fail> {
    let mut host = host;
    let (holds, replies) = left_by(rt, alloc, door, &mut host)?;
    let asks = (host.answered, host.left);
    assert_eq!(rt; (holds, replies.as_slice(), asks), wanted);
    Ok(())
}

// Once the host has ended, the connection at hand is answered so, and no other one is accepted.
#[test]
fn a_host_that_ends(rt: HostRuntime) -> Result<(), Fail> {
    let alloc = rt.alloc();
    let conns = with_conn(alloc, ConnList::new(alloc), VERSION)?;
    let conns = with_conn(alloc, conns, VERSION)?;
    let conns = with_conn(alloc, conns, VERSION)?;
    let door = door_of(alloc, conns);
    let wanted = (true, b"200 503 ".as_slice(), (1, 0));
    works(&rt, alloc, door, Host::open_for(1), wanted)
}

// A long body, before which it is asked whom the key names.
const LONG: &[u8] =
    b"POST /api/files/local HTTP/1.1\r\nX-Api-Key: k\r\nContent-Length: 4097\r\n\r\n";

// A host that has ended before it says whom the key names.
#[test]
fn a_host_that_has_ended(rt: HostRuntime) -> Result<(), Fail> {
    let alloc = rt.alloc();
    let mut conn = conn_of(alloc, LONG)?;
    let mut host = Host::open_for(0);
    let routes = Routes::new(alloc)?;
    let is_open = serve_conn(
        alloc,
        &routes,
        &mut conn,
        &mut host,
        &mut NoStager::new(0),
        &terms(alloc),
    );
    let written = conn.written().unwrap_or(b"");
    assert!(rt; !is_open && written.get(9..12) == Some(b"503".as_slice()));
    Ok(())
}

// The second accept fails: the worker leaves, and says that its door failed.
#[test]
fn a_door_that_fails(rt: HostRuntime) -> Result<(), Fail> {
    let alloc = rt.alloc();
    let fail_at = calls_of(alloc, &[2])?;
    let conns = with_conn(alloc, ConnList::new(alloc), VERSION)?;
    let conns = with_conn(alloc, conns, VERSION)?;
    let door = MemoryDoor::new(alloc, conns, CallList::new(alloc), fail_at);
    let wanted = (false, b"200 ".as_slice(), (2, 1));
    works(&rt, alloc, door, Host::open_for(10), wanted)
}

// A connection with this input, of whose calls this one fails.
fn faulty_conn(alloc: Global, input: &[u8], number: u64) -> Result<ConnList, AllocError>
    ensures { IfOk result (λ all. All IsUntouched all) }
{
    let fail_at = calls_of(alloc, &[number])?;
    let conn = MemoryConn::new(alloc, input, CallList::new(alloc), fail_at)?;
    let mut conns = ConnList::new(alloc);
    conns.push(conn)?;
    Ok(conns)
}

// A door with an upload, of whose connection this call fails, and another message.
fn upload_door(alloc: Global, number: u64) -> Result<MemoryDoor, AllocError> {
    let conns = faulty_conn(alloc, UPLOAD, number)?;
    let conns = with_conn(alloc, conns, VERSION)?;
    Ok(door_of(alloc, conns))
}

// The door after a worker that served an upload, of whose connection this call failed, and another message.
fn serve_upload(rt: &(impl Wait + Abort), alloc: Global, number: u64) -> Result<MemoryDoor, Fail> {
    let mut door = upload_door(alloc, number)?;
    let mut host = Host::open_for(10);
    let holds = works_at(rt, alloc, &mut door, &mut host)?;
    assert_eq!(rt; (holds, host.left), (true, 1));
    Ok(door)
}

// How many bytes were written to an upload's connection, if they are the first of `100 Continue` and the reply, and the
// next connection has its whole reply.
fn upload_written(door: &MemoryDoor) -> Option<usize> {
    let Some([upload, version]) = door.served() else {
        return None;
    };
    let written = upload.written().unwrap_or(b"none");
    if UPLOAD_REPLY.starts_with(written) && version.written() == Some(VERSION_REPLY) {
        return Some(written.len());
    }
    None
}

// Each call of an upload's connection fails in turn, until no call is left that could fail: what was written are the first
// bytes of `100 Continue` and the reply, and the next connection has its whole reply.
#[test]
fn each_call_of_an_upload_failing(rt: HostRuntime) -> Result<(), Fail> {
    for number in 1..=100 {
        let written = upload_written(&serve_upload(&rt, rt.alloc(), number)?);
        assert!(rt; written.is_some(), "at call {number}");
        if written == Some(UPLOAD_REPLY.len()) {
            return Ok(());
        }
    }
    Err("no whole reply")?
}

// Whether a message is replied to.
fn serves(alloc: Global, routes: &Routes, host: &mut Host) -> Result<bool, AllocError> {
    let mut conn = conn_of(alloc, VERSION)?;
    let mut stager = NoStager::new(0);
    let is_open = serve_conn(alloc, routes, &mut conn, host, &mut stager, &terms(alloc));
    let written = conn.written().unwrap_or(b"");
    Ok(is_open && written.get(9..12).unwrap_or(b"-") == b"200".as_slice())
}

// Whether two messages are replied to by the same table of routes.
fn serves_two(alloc: Global, routes: &Routes, host: &mut Host) -> Result<bool, AllocError> {
    Ok(serves(alloc, routes, host)? && serves(alloc, routes, host)?)
}

// The calls that take memory, each once: two connections, and then one at a door.
#[test]
fn ample(rt: HostRuntime) -> Result<(), Fail> {
    let alloc = rt.alloc();
    let mut host = Host::open_for(4);
    assert!(rt; serves_two(alloc, &Routes::new(alloc)?, &mut host)?);
    let conns = with_conn(alloc, ConnList::new(alloc), VERSION)?;
    let door = door_of(alloc, conns);
    works(&rt, alloc, door, host, (true, b"200 ".as_slice(), (4, 1)))
}
