//! Messages whose bytes come one by one, with reads between them that find nothing.
use super::cuts::{LEAVE, UPLOAD};
use super::{PATIENCE, conn_of};
use octo_http::{Message, MessageFault, read_message};
use octo_outside::{ByteConn, CallList, MemoryConn, calls_of};
use std::alloc::{AllocError, Global};
use std::test::Fail;

fn reads_upload(alloc: Global, conn: &mut ByteConn<MemoryConn>) -> Result<bool, MessageFault> {
    let message = read_message(alloc, conn, PATIENCE)?;
    Ok(
        message.path.as_slice() == b"/api/files/local".as_slice()
            && message.body.as_slice() == &UPLOAD[UPLOAD.len() - 142..],
    )
}

#[test]
fn upload(rt: HostRuntime) -> Result<(), Fail> {
    let alloc = rt.alloc();
    let mut conn = ByteConn::new(conn_of(alloc, UPLOAD)?);
    assert!(rt; reads_upload(alloc, &mut conn)?);
    assert!(rt; conn.inner().written() == Some(LEAVE));
    Ok(())
}

// What is read of the upload byte by byte, if these calls find nothing.
fn read_with(alloc: Global, quiet: &[u64]) -> Result<Result<Message, MessageFault>, AllocError> {
    let quiet_at = calls_of(alloc, quiet)?;
    let conn = MemoryConn::new(alloc, UPLOAD, quiet_at, CallList::new(alloc))?;
    Ok(read_message(alloc, &mut ByteConn::new(conn), PATIENCE))
}

// It is read with fewer quiet reads than the reader waits for, wherever these come.
#[test]
fn patient(rt: HostRuntime) -> Result<(), Fail> {
    let alloc = rt.alloc();
    assert!(rt; read_with(alloc, &[1, 2])?.is_ok());
    assert!(rt; read_with(alloc, &[140, 260])?.is_ok());
    Ok(())
}

#[test]
fn impatient(rt: HostRuntime) -> Result<(), Fail> {
    let alloc = rt.alloc();
    let slow = MessageFault::Slow { quiet: PATIENCE };
    assert!(rt; read_with(alloc, &[1, 2, 3])?.err() == Some(slow));
    assert!(rt; read_with(alloc, &[1, 140, 260])?.err() == Some(slow));
    Ok(())
}
