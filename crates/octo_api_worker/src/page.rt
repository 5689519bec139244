//! Which paths are those of the page, and what they show.
ghost use Rattle.std.specs.Prelude.{◌≡◌};
ghost use Rattle.octo_api_worker.specs.Pages.{page_at, head_of, by_method, page_of, page_bytes};

use crate::html::{PAGE_HEAD, PAGE_REPLY};

/// What a path of the page shows.
#[derive(Clone, Copy, Debug, PartialEq, Eq)]
pub enum Page {
    /// The page itself.
    Html,
    /// The head of the page's reply alone.
    HtmlHead,
    /// No icon: the page has its own.
    Icon,
    /// The methods of the path alone.
    Methods,
    /// Nothing: the path has no such method.
    BadMethod,
}

// What GET shows at a path, `None` if it isn't one of the page.
fn page_at(path: &[u8]) -> Option<Page>
    ensures { result ≡ page_at path.now }
{
    if path == b"/".as_slice() || path == b"/index.html".as_slice() {
        return Some(Page::Html);
    }
    if path == b"/favicon.ico".as_slice() {
        return Some(Page::Icon);
    }
    None
}

// What HEAD shows at a path at which GET shows this. Source: RFC 9110, section 9.3.2.
fn head_of(page: Page) -> Page
    ensures { result ≡ head_of page }
{
    match page {
        Page::Html => Page::HtmlHead,
        other => other,
    }
}

// What a method shows at a path at which GET shows this.
fn by_method(method: &str, page: Page) -> Page
    ensures { result ≡ by_method method.now page }
{
    if method == "GET" {
        return page;
    }
    if method == "HEAD" {
        return head_of(page);
    }
    if method == "OPTIONS" {
        return Page::Methods;
    }
    Page::BadMethod
}

/// What a method shows at a path, `None` if the path isn't one of the page.
pub fn page_of(method: &str, path: &[u8]) -> Option<Page>
    ensures { result ≡ page_of method.now path.now }
{
    match page_at(path) {
        Some(page) => Some(by_method(method, page)),
        None => None,
    }
}

/// The whole reply: its head and what follows. Takes no memory.
pub fn page_bytes(page: Page) -> &'static [u8]
    ensures { result.now ≡ page_bytes page }
{
    match page {
        Page::Html => PAGE_REPLY,
        Page::HtmlHead => PAGE_HEAD,
        Page::Icon => {
            b"HTTP/1.1 204 No Content\r\nConnection: close\r\nCache-Control: max-age=86400\r\n\r\n"
        }
        Page::Methods => {
            b"HTTP/1.1 204 No Content\r\nConnection: close\r\nAllow: GET, HEAD\r\n\r\n"
        }
        Page::BadMethod => {
            b"HTTP/1.1 405 Method Not Allowed\r\nConnection: close\r\n\
              Content-Length: 0\r\nAllow: GET, HEAD\r\n\r\n"
        }
    }
}
