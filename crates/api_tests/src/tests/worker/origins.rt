//! Pages of other origins: the reply of a host that has ended, to the byte.
use super::super::conn_of;
use super::Host;
use byte_text::Name;
use octo_api_routes::Routes;
use octo_api_worker::{Terms, serve_conn};
use octo_keeper::NoStager;
use octo_outside::NameList;
use std::alloc::{AllocError, Global};
use std::test::Fail;

// Pages of two origins may read replies.
fn two_origins(alloc: Global) -> Result<Terms, AllocError> {
    let mut origins = NameList::new(alloc);
    origins.push(Name::of_short("http://a:8080"))?;
    origins.push(Name::of_short("https://b"))?;
    Ok(Terms {
        patience: 3,
        origins,
    })
}

// Whether this is written in reply to a message, by a host that has ended.
fn replies(alloc: Global, input: &[u8], reply: &[u8]) -> Result<bool, AllocError> {
    let terms = two_origins(alloc)?;
    let mut conn = conn_of(alloc, input)?;
    let mut host = Host::open_for(0);
    let mut stager = NoStager::new(0);
    let _ = serve_conn(
        alloc,
        &Routes::new(alloc)?,
        &mut conn,
        &mut host,
        &mut stager,
        &terms,
    );
    Ok(conn.written() == Some(reply))
}

const FROM_A: &[u8] = b"GET /api/version HTTP/1.1\r\nOrigin: http://a:8080\r\n\r\n";

const ENDED: &[u8] = b"HTTP/1.1 503 Service Unavailable\r\nConnection: close\r\n\
Content-Length: 18\r\nContent-Type: application/json\r\n\
Access-Control-Allow-Origin: http://a:8080\r\nVary: Origin\r\n\r\n{\"error\":\"Closed\"}";

// The host has ended.
#[test]
fn ended(rt: HostRuntime) -> Result<(), Fail> {
    assert!(rt; replies(rt.alloc(), FROM_A, ENDED)?);
    Ok(())
}
