//! Messages of each kind.
use http::Method;
use octo_api_requests::request_by;
use octo_api_routes::Routes;
use octo_http::Message;
use octo_outside::Blob;
use std::alloc::Global;

// The type of JSON.
const JSON: &str = "application/json";

// The type of an upload.
const FORM: &str = "multipart/form-data; boundary=XY";

/// What messages of one kind are made of.
#[derive(Drop)]
pub struct Pattern {
    posts: bool,
    path: &'static str,
    kind: &'static str,
    body: Blob,
}

fn get(alloc: Global, path: &'static str) -> Pattern {
    Pattern {
        posts: false,
        path,
        kind: JSON,
        body: Blob::new(alloc),
    }
}

// A POST of JSON.
fn post(alloc: Global, path: &'static str, body: &str) -> anyhow::Result<Pattern> {
    Ok(Pattern {
        posts: true,
        path,
        kind: JSON,
        body: Blob::from_slice(alloc, body.as_bytes())?,
    })
}

// This number of lines for the printer.
fn lines(alloc: Global, count: usize) -> anyhow::Result<Pattern> {
    let mut body = Blob::from_slice(alloc, b"{\"commands\":[\"G28\"")?;
    for _ in 1..count {
        body.append(b",\"G1 X10.5 Y20\"")?;
    }
    body.append(b"]}")?;
    Ok(Pattern {
        posts: true,
        path: "/api/printer/command",
        kind: JSON,
        body,
    })
}

// An upload of a file with this number of lines.
fn upload(alloc: Global, count: usize) -> anyhow::Result<Pattern> {
    let mut body = Blob::from_slice(
        alloc,
        b"--XY\r\nContent-Disposition: form-data; name=\"file\"; filename=\"two_towers.gcode\"\r\n\r\n",
    )?;
    for _ in 0..count {
        body.append(b"G1 X10.500 Y20.250 E0.12500 F1800\n")?;
    }
    body.append(b"\r\n--XY--\r\n")?;
    Ok(Pattern {
        posts: true,
        path: "/api/files/local",
        kind: FORM,
        body,
    })
}

// A body that asks for an entry of the queue.
const ENTRY: &str =
    "{\"name\":\"job-1\",\"file\":\"two_towers.gcode\",\"priority\":5,\"copies\":2,\"material\":\"PLA\"}";

/// The pattern of a kind.
pub fn pattern_of(alloc: Global, kind: &str) -> anyhow::Result<Pattern> {
    match kind {
        "get_job" => Ok(get(alloc, "/api/job")),
        "download" => Ok(get(alloc, "/downloads/files/local/two_towers.gcode")),
        "no_route" => Ok(get(alloc, "/api/nothing")),
        "pause" => post(
            alloc,
            "/api/job",
            "{\"command\":\"pause\",\"action\":\"pause\"}",
        ),
        "heat" => post(
            alloc,
            "/api/printer/tool",
            "{\"command\":\"target\",\"targets\":{\"tool0\":215}}",
        ),
        "put_entry" => post(alloc, "/api/queue", ENTRY),
        "lines_2" => lines(alloc, 2),
        "lines_16" => lines(alloc, 16),
        "lines_256" => lines(alloc, 256),
        "upload_120" => upload(alloc, 120),
        "upload_1920" => upload(alloc, 1920),
        "upload_30720" => upload(alloc, 30720),
        _ => Err(anyhow::anyhow!("no such kind")),
    }
}

// A message of a pattern.
fn message_of(alloc: Global, pattern: &Pattern) -> anyhow::Result<Message> {
    let method = if pattern.posts {
        Method::POST
    } else {
        Method::GET
    };
    Ok(Message {
        method,
        path: Blob::from_slice(alloc, pattern.path.as_bytes())?,
        key: Some(Blob::from_slice(alloc, b"rootxkeyx0000000")?),
        origin: None,
        kind: Some(Blob::from_slice(alloc, pattern.kind.as_bytes())?),
        sized: pattern.posts,
        encoded: false,
        body: Blob::from_slice(alloc, pattern.body.as_slice())?,
    })
}

/// Whether a message of a pattern is a request.
pub fn is_request(alloc: Global, routes: &Routes, pattern: &Pattern) -> anyhow::Result<bool> {
    Ok(request_by(alloc, routes, message_of(alloc, pattern)?).is_ok())
}
