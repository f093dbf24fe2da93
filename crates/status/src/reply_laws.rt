//! What is answered to whom, and how long ago things are said to be.
ghost use Rattle.std.specs.Prelude.{◌≡◌, ◌≢◌, ◌-◌, ◌/◌, List, [], Bool, ℕ};
ghost use Rattle.std.specs.Prelude.{codes};
ghost use Rattle.std.specs.Prelude.{true, false, None};
ghost use Rattle.status.specs.Answer.{body_in, body_sent, head_before, head_text};
ghost use Rattle.status.specs.Html.{html_of};
ghost use Rattle.status.specs.Json.{json_of};
ghost use Rattle.status.specs.Metrics.{metrics_of};
ghost use Rattle.status.specs.Replies.{IsAnsweredWith, IsPathOf};
ghost use Rattle.status.specs.Replies.{plain};
ghost use Rattle.status.specs.Request.{asked_by, path_of};
ghost use Rattle.status.specs.Table.{table_of};
ghost use Rattle.status.specs.TextPage.{empty};
ghost use Rattle.status.specs.declared.request.Inquiry.{Inquiry};
ghost use Rattle.status.specs.declared.request.Inquiry.TheVariants as asked;
ghost use Rattle.status.specs.declared.request.View.{View};
ghost use Rattle.status.specs.declared.request.View.TheVariants as view;
ghost use Rattle.status.specs.declared.snapshot.Snapshot.{Snapshot};

/// Who asks for a page by GET is answered with that page and its kind of text. Who asks for another
/// path is told that there is nothing, and who uses another method is told the two that may be
/// used. HEAD has the same head and no body. A page that finds no room is an error of the server.
pub fn each_request_has_its_answer()
    ensures person { (s : Snapshot) (get : Bool) → IsAnsweredWith (asked.Page view.Person get) s
        (codes "200 OK") (codes "text/html; charset=utf-8") [] (html_of s) }
    ensures json { (s : Snapshot) (get : Bool) → IsAnsweredWith (asked.Page view.Json get) s
        (codes "200 OK") (codes "application/json") [] (json_of s) }
    ensures metrics { (s : Snapshot) (get : Bool) → IsAnsweredWith (asked.Page view.Metrics get) s
        (codes "200 OK") (codes "text/plain; version=0.0.4; charset=utf-8") [] (metrics_of s) }
    ensures table { (s : Snapshot) (get : Bool) → IsAnsweredWith (asked.Page view.Table get) s
        (codes "200 OK") plain [] (table_of s) }
    ensures nothing { (s : Snapshot) (get : Bool) → IsAnsweredWith (asked.Unknown get) s
        (codes "404 Not Found") plain [] (codes "404 Not Found\n") }
    ensures method { (s : Snapshot) → IsAnsweredWith asked.Forbidden s
        (codes "405 Method Not Allowed") plain (codes "Allow: GET, HEAD\r\n")
        (codes "405 Method Not Allowed\n") }
    ensures too_long { (s : Snapshot) → IsAnsweredWith asked.TooLong s
        (codes "431 Request Header Fields Too Large") plain []
        (codes "431 Request Header Fields Too Large\n") }
    ensures no_request { (s : Snapshot) → IsAnsweredWith asked.NoRequest s
        (codes "400 Bad Request") plain [] (codes "400 Bad Request\n") }
    ensures no_room { (a : Inquiry) → head_before a None
        ≡ head_text (codes "500 Internal Server Error") plain [] 0 }
    ensures get { (target : List ℕ) → path_of target ≢ codes "/" →
        path_of target ≢ codes "/status.json" → path_of target ≢ codes "/metrics" →
        path_of target ≢ codes "/status.txt" →
        (asked_by (codes "GET") target ≡ asked.Unknown true)
        × (asked_by (codes "HEAD") target ≡ asked.Unknown false) }
    ensures other { (method target : List ℕ) → method ≢ codes "GET" → method ≢ codes "HEAD" →
        asked_by method target ≡ asked.Forbidden }
    ensures body { (room : ℕ) (s : Snapshot) (v : View) →
        (body_sent room (asked.Page v true) s ≡ body_in room (asked.Page v true) s)
        × (body_sent room (asked.Page v false) s ≡ empty room)
        × (body_sent room (asked.Unknown false) s ≡ empty room) }
{}

/// Each page has its path, and stays the same whatever query stands behind it (RFC 3986, 3.3).
pub fn each_path_has_its_page()
    ensures person { IsPathOf (codes "/") view.Person }
    ensures json { IsPathOf (codes "/status.json") view.Json }
    ensures metrics { IsPathOf (codes "/metrics") view.Metrics }
    ensures table { IsPathOf (codes "/status.txt") view.Table }
{}
