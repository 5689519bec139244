//! The head of a message.
ghost use Rattle.std.specs.Prelude.{◌≡◌, ◌≤◌, ◌++◌, ℕ, List, length, map, take, drop, not, true, ◌==◌, bytes_eq, Ok, None, Some, IfOk, IfErr, IfSome, IfNone, OnOk, option_copied, All};
ghost use Rattle.std.specs.List.{take_while, prefix_len};
ghost use Rattle.httparse.specs.Grammar.{RequestHead};
ghost use Rattle.httparse.specs.Spans.{IsWithin, IsRequestWithin, IsRequestAt, IsRequestOf, header_bytes, span_bytes};
ghost use Rattle.octo_http.specs.Fields.{key_of, bearer_of, or_else, is_part_byte, query_key, caller_key};
ghost use Rattle.octo_http.specs.Head.{most_fields, most_head, is_path_byte, query_of, IsHead, IsRefused, IsOpen, IsFound, head_with};

use crate::MessageFault;
use crate::fields::FieldSpans;
use crate::framing::{Framing, framing_of};
use byte_text::{after, same_text};
use http::Method;
use httparse::spans::{EMPTY_HEADER_SPAN, HeaderSpan, RequestSpans, parse_request};
use httparse::{Error, Status};
use octo_outside::Blob;
use std::alloc::{AllocError, Global};

// How many fields a head may have.
const MOST_FIELDS: usize = 64;

/// What the head of a message says.
#[derive(Drop)]
pub struct Head {
    pub method: Method,
    /// The target up to `?`.
    pub path: Blob,
    /// The caller's key.
    pub key: Option<Blob>,
    /// The origin of the page that sends the message.
    pub origin: Option<Blob>,
    /// The body's type.
    pub kind: Option<Blob>,
    /// Whether the body is said to have a coding other than identity.
    pub encoded: bool,
    /// Whether the client waits for `100 Continue` before it sends the body.
    pub expects: bool,
    pub framing: Framing,
}

/// A head at the front of bytes, and its length.
#[derive(Drop)]
pub struct Found {
    pub head: Head,
    pub length: usize,
}

// The key of an Authorization, which is `Bearer`, a space and the key.
fn bearer_of(value: &[u8]) -> Option<&[u8]>
    ensures { option_copied result ≡ bearer_of value.now }
{
    if value.len() >= 7 && same_text(&value[..7], b"Bearer ") {
        Some(&value[7..])
    } else {
        None
    }
}

// The caller's key.
fn key_of<'a>(fields: &FieldSpans<'a>) -> Option<&'a [u8]>
    ensures { option_copied result ≡ key_of fields.now }
{
    match fields.first(b"X-Api-Key") {
        Some(key) => Some(key),
        None => match fields.first(b"Authorization") {
            Some(value) => bearer_of(value),
            None => None,
        },
    }
}

// How many bytes of a target are before its `?`.
fn path_length(target: &[u8]) -> usize
    ensures value { result ≡ prefix_len is_path_byte target.now }
    ensures most { result ≤ length target.now }
{
    target.iter().take_while(|byte| **byte != b'?').count()
}

// The target up to `?`.
fn path_of(target: &[u8]) -> &[u8]
    ensures { result.now ≡ take_while is_path_byte target.now }
{
    &target[..path_length(target)]
}

// The query of a target: what follows its first `?`.
fn query_of(target: &[u8]) -> &[u8]
    ensures { result.now ≡ query_of target.now }
{
    after(target, path_length(target) + 1)
}

// How many bytes of a query are before its next `&`.
fn part_length(query: &[u8]) -> usize
    ensures { result ≡ prefix_len is_part_byte query.now }
{
    query.iter().take_while(|byte| **byte != b'&').count()
}

// A part of a query: up to the next `&`.
fn part_of(query: &[u8]) -> &[u8]
    ensures { result.now ≡ take_while is_part_byte query.now }
{
    &query[..part_length(query)]
}

// Whether bytes begin with a text.
fn has_front(bytes: &[u8], text: &[u8]) -> bool
    ensures { result ≡ bytes_eq (take (length text.now) bytes.now) text.now }
{
    text.len() <= bytes.len() && &bytes[..text.len()] == text
}

// The value of the first `apikey` of a query.
#[tactic(auto, using(crate::proofs::QueryLemmas::query_steps))]
fn query_key(query: &[u8]) -> Option<&[u8]>
    ensures { option_copied result ≡ query_key true query.now }
{
    let mut begins = true;
    for place in 0..query.len() {
        if begins && has_front(&query[place..], b"apikey=") {
            return Some(part_of(after(&query[place..], 7)));
        }
        begins = query[place] == b'&';
    }
    None
}

// The caller's key: that of the fields, else that of the query.
fn caller_key<'a>(fields: &FieldSpans<'a>, query: &'a [u8]) -> Option<&'a [u8]>
    ensures { option_copied result ≡ caller_key fields.now query.now }
{
    match key_of(fields) {
        Some(key) => Some(key),
        None => query_key(query),
    }
}

// A copy of bytes that may be absent.
fn copy_of(alloc: Global, bytes: Option<&[u8]>) -> Result<Option<Blob>, AllocError>
    ensures { IfOk result (λ copy. copy ≡ option_copied bytes.entry) }
{
    match bytes {
        Some(bytes) => Ok(Some(Blob::from_slice(alloc, bytes)?)),
        None => Ok(None),
    }
}

// The method. It's a token, as in every head, so only memory can be short.
fn method_of(alloc: Global, bytes: &[u8]) -> Result<Method, AllocError>
    ensures { IfOk result (λ method. method ≡ bytes.now) }
{
    match Method::from_bytes(alloc, bytes) {
        Ok(method) => Ok(method),
        Err(_) => Err(AllocError),
    }
}

// What a head says whose body is so long.
fn head_of(
    alloc: Global,
    bytes: &[u8],
    request: &RequestSpans,
    fields: &FieldSpans,
    framing: Framing,
) -> Result<Head, AllocError>
    requires method { IsWithin (length bytes.now) request.now.method }
    requires path { IsWithin (length bytes.now) request.now.path }
    ensures { IfOk result (λ head. head ≡ head_with (span_bytes bytes.now request.now.method)
        (span_bytes bytes.now request.now.path) fields.now framing) }
{
    let method = method_of(alloc, request.method.of(bytes))?;
    let target = request.path.of(bytes);
    let path = Blob::from_slice(alloc, path_of(target))?;
    let key = copy_of(alloc, caller_key(fields, query_of(target)))?;
    let origin = copy_of(alloc, fields.first(b"Origin"))?;
    let kind = copy_of(alloc, fields.first(b"Content-Type"))?;
    Ok(Head {
        method,
        path,
        key,
        origin,
        kind,
        encoded: fields.one_is_not(b"Content-Encoding", b"identity"),
        expects: fields.one_is(b"Expect", b"100-continue"),
        framing,
    })
}

// What a whole head at the front says, and its length, or that its fields contradict each other.
fn whole_head(
    alloc: Global,
    bytes: &[u8],
    spans: &[HeaderSpan],
    request: &RequestSpans,
) -> Result<Found, MessageFault>
    requires spans { length spans.now ≡ most_fields }
    requires within { IsRequestWithin bytes.now spans.now request.now }
    requires is { IsRequestOf bytes.now spans.now request.now }
    requires short { length bytes.now ≤ most_head }
    ensures found { IfOk result (IsFound bytes.now) }
    ensures refused { IfErr result (IsRefused bytes.now) }
{
    let fields = FieldSpans::new(bytes, &spans[..request.headers]);
    match framing_of(&fields) {
        Some(framing) => Ok(Found {
            head: head_of(alloc, bytes, request, &fields, framing)?,
            length: request.len,
        }),
        None => Err(MessageFault::BadHead),
    }
}

/// Looks for a head at the front of the bytes, `None` if more bytes may make one. Fails as `BadHead`, `HeadTooLarge` or
/// `NoMemory`.
pub fn look(alloc: Global, bytes: &[u8]) -> Result<Option<Found>, MessageFault>
    requires { length bytes.now ≤ most_head }
    ensures found { IfOk result (λ found. IfSome found (IsFound bytes.now)) }
    ensures partial { IfOk result (λ found. IfNone found (IsOpen bytes.now)) }
    ensures refused { IfErr result (IsRefused bytes.now) }
{
    let mut spans = [EMPTY_HEADER_SPAN; MOST_FIELDS];
    match parse_request(bytes, &mut spans) {
        Ok(Status::Complete(request)) => Ok(Some(whole_head(alloc, bytes, &spans, &request)?)),
        Ok(Status::Partial) => Ok(None),
        Err(Error::TooManyHeaders) => Err(MessageFault::HeadTooLarge),
        Err(_) => Err(MessageFault::BadHead),
    }
}
