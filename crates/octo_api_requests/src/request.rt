//! What a message asks.
ghost use Rattle.std.specs.Prelude.{◌≡◌, ◌⊎◌, Err, IfOk, IfErr, Option, option_map};
ghost use Rattle.serde_json.specs.Data.{Data};
ghost use Rattle.serde_json.specs.View.{view};
ghost use Rattle.octo_api_routes.specs.Places.{target_of};
ghost use Rattle.octo_api_requests.specs.Requests.{takes_json, key_of, type_of, or_bad, refusal_of, asked_body, wanted_for, request_in, request_at, IsJson, Asks, MessageReadsAs};
ghost use Rattle.octo_api_requests.specs.Bodies.{asked_in};
ghost use Rattle.octo_api_requests.specs.BodyFaults.{fault_in};
ghost use Rattle.octo_api_requests.specs.Callers.{IsCallers, WantsCallers};
ghost use Rattle.octo_api_routes.specs.declared.wanted.Wanted.TheVariants as wanted;

use crate::Direct;
use crate::bodies::asked_in;
use crate::body_faults::fault_in;
use crate::upload::upload_of;
use octo_api_commands::Unread;
use octo_api_routes::{
    BodyFault, Form, MediaFault, Routes, Wanted, methods_of, target_of, wanted_of,
};
use octo_asks::{Ask, Request};
use octo_http::Message;
use octo_http_forms::is_type;
use octo_outside::Blob;
use serde_json::Value;
use std::alloc::Global;

// The most bytes of a JSON body.
const MOST_JSON: usize = 1_048_576;

// Whether a type is JSON, perhaps with parameters, or none is given. Source: RFC 9110, section 8.3.1.
fn takes_json(kind: &Option<Blob>) -> bool
    ensures { result ≡ takes_json kind.now }
{
    match kind {
        Some(kind) => is_type(kind.as_slice(), b"application/json"),
        None => true,
    }
}

// A body's JSON, `None` if it isn't JSON. Source: RFC 8259.
fn json_of(alloc: Global, body: &[u8]) -> Result<Option<Value>, Direct>
    ensures ok { IfOk result (λ value. IsJson body.now (option_map (λ json. view json) value)) }
    ensures err { IfErr result (λ e. e ≡ Direct.NoMemory) }
{
    match Value::from_slice(alloc, body) {
        Ok(value) => Ok(Some(value)),
        Err(error) => {
            if error.is_memory() {
                return Err(Direct::NoMemory);
            }
            Ok(None)
        }
    }
}

// Why JSON that isn't read asks nothing.
fn refusal_of(unread: Unread, form: &Form, body: &Value) -> Direct
    ensures { result ≡ refusal_of unread (fault_in form.now (view body.now)) }
{
    match unread {
        Unread::NoMemory => Direct::NoMemory,
        Unread::Wrong => Direct::BadBody {
            fault: fault_in(form, body),
        },
    }
}

// What JSON asks in a form, or what is wrong with it.
fn asked_json(alloc: Global, form: &Form, body: &Value) -> Result<Request, Direct>
    ensures asks { (result ≡ Err Direct.NoMemory)
        ⊎ (result ≡ or_bad (fault_in form.now (view body.now)) (asked_in form.now (view body.now))) }
    ensures callers { IfOk result IsCallers }
{
    match asked_in(alloc, form, body) {
        Ok(request) => Ok(request),
        Err(unread) => Err(refusal_of(unread, form, body)),
    }
}

// What a body of JSON asks.
fn asked_body(alloc: Global, form: &Form, body: &[u8]) -> Result<Request, Direct>
    ensures asks { (result ≡ Err Direct.NoMemory) ⊎ ((value : Option Data)
        → IsJson body.now value → result ≡ asked_body form.now body.now value) }
    ensures callers { IfOk result IsCallers }
{
    if body.len() > MOST_JSON {
        return Err(Direct::BadBody {
            fault: BodyFault::TooLong,
        });
    }
    match json_of(alloc, body)? {
        Some(value) => asked_json(alloc, form, &value),
        None => Err(Direct::BadBody {
            fault: BodyFault::NotJson,
        }),
    }
}

// What a message asks whose body isn't looked at.
fn request_without_body(message: &Message, request: Request) -> Result<Request, Direct>
    ensures asks { Asks message.now (request_in (wanted.Nothing request) message.now) result }
    ensures same { IfOk result (λ asked. asked ≡ request) }
{
    if message.encoded {
        return Err(Direct::BadMedia {
            fault: MediaFault::Coded,
        });
    }
    Ok(request)
}

// What a message with JSON asks.
fn json_request(alloc: Global, message: &Message, form: Form) -> Result<Request, Direct>
    ensures asks { Asks message.now (request_in (wanted.Json form) message.now) result }
    ensures callers { IfOk result IsCallers }
{
    if !message.sized {
        return Err(Direct::NoLength);
    }
    if message.encoded {
        return Err(Direct::BadMedia {
            fault: MediaFault::Coded,
        });
    }
    if !takes_json(&message.kind) {
        return Err(Direct::BadMedia {
            fault: MediaFault::NotJson,
        });
    }
    asked_body(alloc, &form, message.body.as_slice())
}

// The type of a message's body, empty if none is given.
fn type_of(message: &Message) -> &[u8]
    ensures { result.now ≡ type_of message.now }
{
    match &message.kind {
        Some(kind) => kind.as_slice(),
        None => b"",
    }
}

// What a message with an upload asks.
fn upload_request(alloc: Global, message: &Message) -> Result<Request, Direct>
    ensures asks { Asks message.now (request_in wanted.Upload message.now) result }
    ensures callers { IfOk result IsCallers }
{
    if !message.sized {
        return Err(Direct::NoLength);
    }
    if message.encoded {
        return Err(Direct::BadMedia {
            fault: MediaFault::Coded,
        });
    }
    upload_of(alloc, message.body.as_slice(), type_of(message))
}

// What a message asks whose path and method want this.
fn request_in(alloc: Global, message: &Message, wanted: Wanted) -> Result<Request, Direct>
    ensures asks { Asks message.now (request_in wanted message.now) result }
    ensures callers { WantsCallers wanted → IfOk result IsCallers }
{
    match wanted {
        Wanted::Nothing { request } => request_without_body(message, request),
        Wanted::Json { form } => json_request(alloc, message, form),
        Wanted::Upload => upload_request(alloc, message),
    }
}

// What a method wants of a path.
fn wanted_for(alloc: Global, routes: &Routes, method: &str, path: &[u8]) -> Result<Wanted, Direct>
    ensures wanted { (result ≡ Err Direct.NoMemory)
        ⊎ (result ≡ wanted_for method.now (target_of path.now)) }
    ensures callers { IfOk result WantsCallers }
{
    let Some(target) = target_of(alloc, routes, path)? else {
        return Err(Direct::NoRoute);
    };
    let allowed = methods_of(&target);
    if method == "OPTIONS" {
        return Err(Direct::Options { allowed });
    }
    wanted_of(method, &target).ok_or(Direct::BadMethod { allowed })
}

// What a message asks, without the caller's key.
fn request_of(alloc: Global, routes: &Routes, message: &Message) -> Result<Request, Direct>
    ensures asks { Asks message.now (request_at message.now) result }
    ensures callers { IfOk result IsCallers }
{
    let method = message.method.as_str();
    let wanted = wanted_for(alloc, routes, method, message.path.as_slice())?;
    request_in(alloc, message, wanted)
}

// The caller's key, empty if the message has none.
fn key_of(alloc: Global, message: Message) -> Blob
    ensures { result ≡ key_of message }
{
    let Message { key, .. } = message;
    match key {
        Some(key) => key,
        None => Blob::new(alloc),
    }
}

/// What a message asks, by a table of routes that is made once. Of several faults the path's is returned first, then the
/// method's, a missing length, the type and the body. Source: OctoPrint's REST API; RFC 9110, section 15.5.
pub fn request_by(alloc: Global, routes: &Routes, message: Message) -> Result<Ask, Direct>
    ensures says { MessageReadsAs message result }
    ensures callers { IfOk result (λ ask. IsCallers ask.request) }
{
    let request = request_of(alloc, routes, &message)?;
    let key = key_of(alloc, message);
    Ok(Ask { key, request })
}

/// What a message asks, as `request_by` returns it, by a table of routes made for this message. `NoMemory` also if there is
/// none for the table.
pub fn to_request(alloc: Global, message: Message) -> Result<Ask, Direct>
    ensures says { MessageReadsAs message result }
    ensures callers { IfOk result (λ ask. IsCallers ask.request) }
{
    let routes = Routes::new(alloc)?;
    request_by(alloc, &routes, message)
}
