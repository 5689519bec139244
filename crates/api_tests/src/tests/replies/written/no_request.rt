//! Replies to messages that are no request, and to inputs that are no message.
use super::*;
use octo_api_refusals::{direct_bytes, fault_bytes};
use octo_api_routes::{Direct, Methods};
use octo_http::MessageFault;

// Messages that are no request: methods that no path has, and memory that runs out.
const DIRECT: [(Direct, &str); 3] = [
    (
        Direct::Options {
            allowed: Methods {
                get: true,
                post: false,
                put: false,
                delete: true,
            },
        },
        "HTTP/1.1 204 No Content\r\nConnection: close\r\nAllow: GET, HEAD, DELETE\r\n\r\n",
    ),
    (
        Direct::BadMethod {
            allowed: Methods {
                get: true,
                post: false,
                put: false,
                delete: true,
            },
        },
        "HTTP/1.1 405 Method Not Allowed\r\nConnection: close\r\nContent-Length: 86\r\n\
Content-Type: application/json\r\nAllow: GET, HEAD, DELETE\r\n\r\n{\"error\":\"BadMethod\",\"reason\":\"this path takes GET, HEAD, DELETE and no other method\"}",
    ),
    (
        Direct::NoMemory,
        "HTTP/1.1 507 Insufficient Storage\r\nConnection: close\r\nContent-Length: 0\r\n\r\n",
    ),
];

// The replies to messages that are no request put these bytes on a connection.
fn direct_put(rt: &impl Abort, alloc: Global, rows: &[(Direct, &str)]) -> Result<(), Fail> {
    for (direct, bytes) in rows {
        puts(rt, alloc, &direct_bytes(alloc, direct), *bytes)?;
    }
    Ok(())
}

#[test]
fn no_requests(rt: HostRuntime) -> Result<(), Fail> {
    direct_put(&rt, rt.alloc(), &DIRECT)
}

// Memory runs out as a message is read.
#[test]
fn faulty_messages(rt: HostRuntime) -> Result<(), Fail> {
    let reply = fault_bytes(rt.alloc(), &MessageFault::NoMemory).ok_or("no reply")?;
    puts(
        &rt,
        rt.alloc(),
        &reply,
        "HTTP/1.1 507 Insufficient Storage\r\nConnection: close\r\nContent-Length: 0\r\n\r\n",
    )
}

// A peer that has gone gets no reply.
#[test]
fn gone_peers(rt: HostRuntime) {
    assert!(rt; fault_bytes(rt.alloc(), &MessageFault::Ended).is_none());
    assert!(rt; fault_bytes(rt.alloc(), &MessageFault::ReadFault).is_none());
}
