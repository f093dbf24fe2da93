//! What a visitor is answered (RFC 9110, RFC 9112).
ghost use Rattle.std.specs.Prelude.{◌≡◌};
ghost use Rattle.status.specs.Answer as spec;
ghost use Rattle.status.specs.TextPage.{put};

use crate::html::put_html;
use crate::json::put_json;
use crate::metrics::put_metrics;
use crate::page::TextPage;
use crate::request::{Inquiry, View};
use crate::snapshot::Snapshot;
use crate::table::put_table;
use crate::words::{Word, put_words};

/// The status of an answer (RFC 9110, 15).
fn status_of(asked: Inquiry) -> &'static str
    ensures { result.now ≡ spec.status_of asked }
{
    match asked {
        Inquiry::Page(_, _) => "200 OK",
        Inquiry::Unknown(_) => "404 Not Found",
        Inquiry::Forbidden => "405 Method Not Allowed",
        Inquiry::TooLong => "431 Request Header Fields Too Large",
        Inquiry::Nothing | Inquiry::NoRequest => "400 Bad Request",
    }
}

/// What kind of text the body is (RFC 9110, 8.3).
fn kind_of(asked: Inquiry) -> &'static str
    ensures { result.now ≡ spec.kind_of asked }
{
    match asked {
        Inquiry::Page(View::Person, _) => "text/html; charset=utf-8",
        Inquiry::Page(View::Json, _) => "application/json",
        Inquiry::Page(View::Metrics, _) => "text/plain; version=0.0.4; charset=utf-8",
        _ => "text/plain; charset=utf-8",
    }
}

/// The field that names the methods which may be used (RFC 9110, 10.2.1), if others were.
fn allow_of(asked: Inquiry) -> &'static str
    ensures { result.now ≡ spec.allow_of asked }
{
    match asked {
        Inquiry::Forbidden => "Allow: GET, HEAD\r\n",
        _ => "",
    }
}

/// Whether the body goes out.
fn has_body(asked: Inquiry) -> bool
    ensures { result ≡ spec.has_body asked }
{
    match asked {
        Inquiry::Page(_, has_body) | Inquiry::Unknown(has_body) => has_body,
        _ => true,
    }
}

/// Puts a page.
fn put_page(body: &mut TextPage, view: View, snapshot: &Snapshot<'_>)
    ensures { body.new ≡ put (spec.page_of view snapshot.now) body.old }
{
    match view {
        View::Person => put_html(body, snapshot),
        View::Json => put_json(body, snapshot),
        View::Metrics => put_metrics(body, snapshot),
        View::Table => put_table(body, snapshot),
    }
}

/// The page that is asked for, if one is.
fn view_of(asked: Inquiry) -> Option<View>
    ensures { result ≡ spec.view_of asked }
{
    match asked {
        Inquiry::Page(view, _) => Some(view),
        _ => None,
    }
}

/// Puts the body of an answer: the page, or its status in words.
fn put_body(body: &mut TextPage, asked: Inquiry, snapshot: &Snapshot<'_>)
    ensures { body.new ≡ put (spec.body_of asked snapshot.now) body.old }
{
    match view_of(asked) {
        Some(view) => put_page(body, view, snapshot),
        None => put_words(body, &[Word::Text(status_of(asked)), Word::Text("\n")]),
    }
}

/// Puts the head of an answer with a body of so many octets.
fn put_head<'a>(head: &mut TextPage, status: &'a str, kind: &'a str, allow: &'a str, len: usize)
    ensures { head.new ≡ put (spec.head_text status.now kind.now allow.now len) head.old }
{
    put_words(
        head,
        &[
            Word::Text("HTTP/1.1 "),
            Word::Text(status),
            Word::Text("\r\nContent-Type: "),
            Word::Text(kind),
            Word::Text("\r\nContent-Length: "),
            Word::Number(len as u64),
            // Not stored, since it shows this moment. The page has no script and loads nothing, so
            // nothing that gets into it may.
            Word::Text("\r\nConnection: close\r\nCache-Control: no-store\r\n"),
            Word::Text("X-Content-Type-Options: nosniff\r\nContent-Security-Policy: "),
            Word::Text("default-src 'none'; style-src 'unsafe-inline'\r\n"),
            Word::Text(allow),
            Word::Text("\r\n"),
        ],
    );
}

/// Puts the head of an answer with this body, or with none if the body found no room.
fn put_head_for(head: &mut TextPage, asked: Inquiry, body: &TextPage)
    ensures { head.new ≡ put (spec.head_before asked body.now.text) head.old }
{
    match body.text() {
        Some(text) => {
            let allow = allow_of(asked);
            put_head(head, status_of(asked), kind_of(asked), allow, text.len());
        }
        // Half a page would pass for a whole one.
        None => put_head(
            head,
            "500 Internal Server Error",
            "text/plain; charset=utf-8",
            "",
            0,
        ),
    }
}

/// Makes the answer: its head, and its body.
pub(crate) fn make_answer(
    head: &mut TextPage,
    body: &mut TextPage,
    asked: Inquiry,
    snapshot: &Snapshot<'_>,
)
    ensures head { head.new ≡ spec.head_of head.old.room body.old.room asked snapshot.now }
    ensures body { body.new ≡ spec.body_sent body.old.room asked snapshot.now }
{
    head.clear();
    body.clear();
    // Also for HEAD, whose answer says how long the body would be (RFC 9110, 9.3.2).
    put_body(body, asked, snapshot);
    put_head_for(head, asked, body);
    if has_body(asked) {
        return;
    }
    body.clear();
}
