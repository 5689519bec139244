//! The caller's key: in a field, else in the query; and the origin of the page that sends a message.
use super::read;
use octo_http::Message;
use octo_outside::Blob;
use std::alloc::Global;
use std::process::Abort;
use std::test::Fail;

// Whether the message's path is `/api/job`, and its key is this.
fn has_key(message: &Message, key: Option<&str>) -> bool {
    let found = match &message.key {
        Some(found) => Some(found.as_slice()),
        None => None,
    };
    let wanted = match key {
        Some(text) => Some(text.as_bytes()),
        None => None,
    };
    message.path.as_slice() == b"/api/job".as_slice() && found == wanted
}

// Whether the message of this input has this key.
fn says(alloc: Global, input: &str, key: Option<&str>) -> Result<bool, Fail> {
    let message = read(alloc, input.as_bytes())??;
    Ok(has_key(&message, key))
}

// Messages, and their keys.
const KEYS: [(&str, Option<&str>); 11] = [
    ("GET /api/job HTTP/1.1\r\n\r\n", None),
    ("GET /api/job? HTTP/1.1\r\n\r\n", None),
    ("GET /api/job?apikey=k HTTP/1.1\r\n\r\n", Some("k")),
    ("GET /api/job?apikey= HTTP/1.1\r\n\r\n", Some("")),
    (
        "GET /api/job?a=b&apikey=k&apikey=l HTTP/1.1\r\n\r\n",
        Some("k"),
    ),
    ("GET /api/job?apikey HTTP/1.1\r\n\r\n", None),
    ("GET /api/job?xapikey=k&Apikey=l HTTP/1.1\r\n\r\n", None),
    ("GET /api/job?a=apikey=k HTTP/1.1\r\n\r\n", None),
    ("GET /api/job?a?apikey=k HTTP/1.1\r\n\r\n", None),
    (
        "GET /api/job?apikey=k HTTP/1.1\r\nX-Api-Key: h\r\n\r\n",
        Some("h"),
    ),
    (
        "GET /api/job?apikey=k HTTP/1.1\r\nAuthorization: Basic b\r\n\r\n",
        Some("k"),
    ),
];

// Each message has the key beside it.
fn each_says(rt: &impl Abort, alloc: Global, rows: &[(&str, Option<&str>)]) -> Result<(), Fail> {
    for (input, key) in rows {
        assert!(rt; says(alloc, *input, *key)?, "{input}");
    }
    Ok(())
}

#[test]
fn keys(rt: HostRuntime) -> Result<(), Fail> {
    each_says(&rt, rt.alloc(), &KEYS)
}

// The origin of this input's message.
fn origin_of(alloc: Global, input: &str) -> Result<Option<Blob>, Fail> {
    Ok(read(alloc, input.as_bytes())??.origin)
}

// Whether the message of this input has this origin.
fn comes_from(alloc: Global, input: &str, origin: Option<&str>) -> Result<bool, Fail> {
    match (origin_of(alloc, input)?, origin) {
        (Some(found), Some(origin)) => Ok(found.as_slice() == origin.as_bytes()),
        (found, origin) => Ok(found.is_none() && origin.is_none()),
    }
}

#[test]
fn origins(rt: HostRuntime) -> Result<(), Fail> {
    let alloc = rt.alloc();
    assert!(rt; comes_from(alloc, "GET / HTTP/1.1\r\n\r\n", None)?);
    let one = "GET / HTTP/1.1\r\norigin: http://a:8080\r\n\r\n";
    assert!(rt; comes_from(alloc, one, Some("http://a:8080"))?);
    let two = "GET / HTTP/1.1\r\nOrigin: null\r\nOrigin: http://b\r\n\r\n";
    assert!(rt; comes_from(alloc, two, Some("null"))?);
    Ok(())
}
