//! What a visitor asks (RFC 9112).
ghost use Rattle.std.specs.Prelude.{◌≡◌, ◌==◌, ◌<◌, ◌≤◌, ℕ, List, IfSome, length, position};
ghost use Rattle.httparse.specs.Grammar.{ReadsRequest, RequestHead};
ghost use Rattle.status.specs.Request as spec;

use httparse::spans::{EMPTY_HEADER_SPAN, parse_request};
use httparse::{Error, Status};

/// How many header fields a request may have.
const FIELDS: usize = 64;

/// What can be looked at.
#[derive(Clone, Copy, PartialEq, Eq)]
pub(crate) enum View {
    /// `/`: a page for a person.
    Person,
    /// `/status.json`
    Json,
    /// `/metrics`, for Prometheus.
    Metrics,
    /// `/status.txt`: a table for a terminal.
    Table,
}

/// What a visitor asks.
#[derive(Clone, Copy, PartialEq, Eq)]
pub(crate) enum Inquiry {
    /// The request hasn't come whole.
    Nothing,
    /// A page, with its body or without (RFC 9110, 9.3.1 and 9.3.2).
    Page(View, bool),
    /// A page that isn't there.
    Unknown(bool),
    /// Something else than to be shown a page.
    Forbidden,
    /// What came is no request.
    NoRequest,
    /// The request has more than 8,192 octets, or more than 64 header fields.
    TooLong,
}

/// Where a target's query begins, if it has one.
fn query_at(target: &[u8]) -> Option<usize>
    ensures first { result ≡ position (λ c. c == 63) target.now }
    ensures within { IfSome result (λ end. end < length target.now) }
{
    target.iter().position(|octet| *octet == b'?')
}

/// The path of a target: what stands before its query (RFC 3986, 3.3).
fn path_of(target: &[u8]) -> &[u8]
    ensures { result.now ≡ spec.path_of target.entry.now }
{
    match query_at(target) {
        Some(end) => &target[..end],
        None => target,
    }
}

/// What a path shows.
fn view_of(path: &[u8]) -> Option<View>
    ensures { result ≡ spec.view_of path.now }
{
    if path == b"/".as_slice() {
        Some(View::Person)
    } else if path == b"/status.json".as_slice() {
        Some(View::Json)
    } else if path == b"/metrics".as_slice() {
        Some(View::Metrics)
    } else if path == b"/status.txt".as_slice() {
        Some(View::Table)
    } else {
        None
    }
}

/// What is asked of a path.
fn asked_at(target: &[u8], has_body: bool) -> Inquiry
    ensures { result ≡ spec.asked_at target.now has_body }
{
    match view_of(path_of(target)) {
        Some(view) => Inquiry::Page(view, has_body),
        None => Inquiry::Unknown(has_body),
    }
}

/// What is asked by a method and a target.
fn asked_by(method: &[u8], target: &[u8]) -> Inquiry
    ensures { result ≡ spec.asked_by method.now target.now }
{
    if method == b"GET".as_slice() {
        asked_at(target, true)
    } else if method == b"HEAD".as_slice() {
        asked_at(target, false)
    } else {
        Inquiry::Forbidden
    }
}

/// What a visitor asks who has sent these octets so far.
pub(crate) fn asked_of(octets: &[u8]) -> Inquiry
    ensures right { spec.Asks octets.now result }
    ensures found { (head : RequestHead) (rest : List ℕ) → ReadsRequest octets.now head rest
        → length head.fields ≤ 64 → result ≡ spec.asked_by head.method head.target }
{
    let mut fields = [EMPTY_HEADER_SPAN; FIELDS];
    match parse_request(octets, &mut fields) {
        Ok(Status::Complete(head)) => asked_by(head.method.of(octets), head.path.of(octets)),
        Ok(Status::Partial) => Inquiry::Nothing,
        Err(Error::TooManyHeaders) => Inquiry::TooLong,
        Err(_) => Inquiry::NoRequest,
    }
}
