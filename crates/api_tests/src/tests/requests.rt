//! Messages, and what they ask. scripts/process/api has tables of the others.
use http::Method;
use octo_api_requests::{request_by, to_request};
use octo_api_routes::Routes;
use octo_asks::{Ask, Request};
use octo_http::Message;
use octo_outside::Blob;
use std::alloc::Global;
use std::process::Abort;
use std::test::Fail;

// A POST of JSON to the job, with a key and a length.
fn job_message(alloc: Global, body: &[u8]) -> Result<Message, Fail> {
    Ok(Message {
        method: Method::POST,
        path: Blob::from_slice(alloc, b"/api/job")?,
        key: Some(Blob::from_slice(alloc, b"rootxkeyx0000000")?),
        origin: None,
        kind: Some(Blob::from_slice(alloc, b"application/json; charset=utf-8")?),
        sized: true,
        encoded: false,
        body: Blob::from_slice(alloc, body)?,
    })
}

// The name of a request.
fn name_of(request: &Request) -> &'static str {
    match request {
        Request::Start => "Start",
        Request::Cancel => "Cancel",
        _ => "another request",
    }
}

// Whether this is asked, with the key of the message.
fn is_ask(ask: &Ask, wanted: &str) -> bool {
    name_of(&ask.request) == wanted && ask.key.as_slice() == b"rootxkeyx0000000".as_slice()
}

// Whether a POST to the job comes to this.
fn asks(alloc: Global, body: &[u8], wanted: &str) -> Result<bool, Fail> {
    let ask = to_request(alloc, job_message(alloc, body)?)?;
    Ok(is_ask(&ask, wanted))
}

// Whether a POST to the job comes to this by a table of routes.
fn asks_by(alloc: Global, routes: &Routes, body: &[u8], wanted: &str) -> Result<bool, Fail> {
    let ask = request_by(alloc, routes, job_message(alloc, body)?)?;
    Ok(is_ask(&ask, wanted))
}

// One table of routes serves two messages.
fn serves_two(rt: &impl Abort, alloc: Global, routes: &Routes) -> Result<(), Fail> {
    assert!(rt; asks_by(alloc, routes, b"{\"command\":\"start\"}", "Start")?);
    assert!(rt; asks_by(alloc, routes, b"{\"command\":\"cancel\"}", "Cancel")?);
    Ok(())
}

// The calls that take memory, each once.
#[test]
fn ample(rt: HostRuntime) -> Result<(), Fail> {
    let alloc = rt.alloc();
    assert!(rt; asks(alloc, b"{\"command\":\"start\"}", "Start")?);
    serves_two(&rt, alloc, &Routes::new(alloc)?)
}
