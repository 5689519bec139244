//! The methods of a path, as a text and as a field.
ghost use Rattle.std.specs.Prelude.{◌≡◌, ◌≤◌, ◌+◌, length};
ghost use Rattle.arrayvec.specs.ArrayString.{array_string_len};
ghost use Rattle.octo_api_refusals.specs.Reasons.{with_method, methods_text, allow_line};

use arrayvec::ArrayString;
use byte_text::append;
use octo_api_routes::Methods;
use octo_http::FieldLines;

/// The names of methods: five of them, with a comma and a space between each two, have 28 bytes.
pub type MethodsText = ArrayString<32>;

// A list of names with one more, if it is allowed.
fn with_method(names: MethodsText, is_allowed: bool, name: &str) -> MethodsText
    requires { array_string_len names + 2 + length name.now ≤ 32 }
    ensures bytes { result.bytes ≡ with_method is_allowed name.now names.bytes }
    ensures few { array_string_len result ≤ array_string_len names + 2 + length name.now }
{
    let mut all = names;
    if !is_allowed {
        return all;
    }
    if all.is_empty() {
        all.push_str(name);
        return all;
    }
    all.push_str(", ");
    all.push_str(name);
    all
}

/// The names of methods, with a comma and a space between each two.
pub fn methods_text(allowed: Methods) -> MethodsText
    ensures { result.bytes ≡ methods_text allowed }
{
    let names = with_method(MethodsText::new(), allowed.get, "GET");
    let names = with_method(names, allowed.get, "HEAD");
    let names = with_method(names, allowed.post, "POST");
    let names = with_method(names, allowed.put, "PUT");
    with_method(names, allowed.delete, "DELETE")
}

// The field that names the methods of a path. Source: RFC 9110, section 10.2.1.
pub(crate) fn allow_line(allowed: Methods) -> FieldLines
    ensures { result.items ≡ allow_line allowed }
{
    let names = methods_text(allowed);
    let mut line = FieldLines::new();
    append(&mut line, b"Allow: ");
    append(&mut line, names.as_str().as_bytes());
    append(&mut line, b"\r\n");
    line
}
