// A client's responses in a lent row of words, two words a place, a place for each server: counted, heard and answered. Figure 1's lines 1
// to 25 stand as definitions in specs/Figure1.

#![tactic(auto)]

ghost use Rattle.std.specs.Prelude.{◌≡◌, map, ◌+◌, ◌*◌, ◌≤◌, length};
ghost use Rattle.std.proofs.lemmas.List.Edits.{sets};
ghost use Rattle.ids.specs.Limits.{max_client};
ghost use Rattle.ids.specs.Requests.{same, is_request, no_request};
ghost use Rattle.wire.specs.Format.{message_bytes, bytes_of_all, size_of_all};
ghost use Rattle.rows.specs.Rows.{Places};
ghost use Rattle.client_responses.specs.Figure1.{filled as filled_of, count, own as own_of, current, told as told_of, reply as reply_of, replies, round};
ghost use Rattle.client_responses.specs.Row.{shown, place, responses_in, place_of, misfit as misfit_of, heard_row};
ghost use Rattle.client_responses.specs.Inner.{pair, one};

use ids::{Request, ServerId, Timestamp};
use wire::Message;

#[derive(Clone, Copy)]
pub enum Section {
    Remainder,
    Trying,
    Critical,
}

// The tests of a place's two words count, and the loops over them never leave early, so that they become vector code.
fn filled(client: u32, timestamp: u32) -> usize
    ensures { result ≡ one (filled_of (shown (pair client timestamp))) }
{
    usize::from(client != 0 || timestamp != 0)
}

// The words of `r`, unless they are those of an empty place.
fn own(r: Request, client: u32, timestamp: u32) -> usize
    ensures { result ≡ one (is_request r (shown (pair client timestamp))) }
{
    if client != r.client.0 as u32 {
        return 0;
    }
    if timestamp != r.timestamp.0 {
        return 0;
    }
    filled(client, timestamp)
}

fn misfit(r: Request, client: u32, timestamp: u32) -> usize
    requires { client ≤ max_client }
    ensures { result ≡ one (misfit_of r (shown (pair client timestamp))) }
{
    if client == 0 {
        return usize::from(timestamp != 0);
    }
    if timestamp == 0 {
        return 1;
    }
    if client != r.client.0 as u32 {
        return 0;
    }
    usize::from(timestamp != r.timestamp.0)
}

// How many of the first `n` places are filled.
pub fn filled_count(row: &[u32], n: usize) -> usize
    requires { 2 * n ≤ length row.now }
    ensures { result ≡ count (map filled_of (responses_in row.now n)) }
{
    let mut found = 0;
    for i in 0..n {
        found += filled(row[2 * i], row[2 * i + 1]);
    }
    found
}

// How many of them show the request `r`.
pub fn own_count(r: Request, row: &[u32], n: usize) -> usize
    requires { 2 * n ≤ length row.now }
    ensures { result ≡ count (own_of r (responses_in row.now n)) }
{
    let mut found = 0;
    for i in 0..n {
        found += own(r, row[2 * i], row[2 * i + 1]);
    }
    found
}

// How many of them the client of `r` cannot have: out of range, or its own with another timestamp.
pub fn misfit_count(r: Request, row: &[u32], n: usize) -> usize
    requires { Places row.now × (2 * n ≤ length row.now) }
    ensures { result ≡ count (map (misfit_of r) (responses_in row.now n)) }
{
    let mut found = 0;
    for i in 0..n {
        found += misfit(r, row[2 * i], row[2 * i + 1]);
    }
    found
}

fn is_empty(q: Request) -> bool
    ensures { result ≡ same q no_request }
{
    q == rows::nobody()
}

// Whether the place `q` shows the request `r`.
pub fn is_own(r: Request, q: Request) -> bool
    ensures { result ≡ is_request r (shown q) }
{
    !is_empty(q) && ids::same_request(q, r)
}

// Line 8's second part: the owner is another client, or nobody, or the request `r` itself.
fn is_current(r: Request, o: Option<Request>) -> bool
    ensures { result ≡ current r o }
{
    match o {
        None => true,
        Some(q) => q.client != r.client || q.timestamp == r.timestamp,
    }
}

fn place_of(o: Option<Request>) -> Request
    ensures { result ≡ place o }
{
    match o {
        None => rows::nobody(),
        Some(q) => q,
    }
}

// The timestamp that a RESPONSE tells of, 0 if it names nobody.
pub fn told(o: Option<Request>) -> Timestamp
    ensures { result ≡ told_of o }
{
    place_of(o).timestamp
}

// Lines 8 and 9: server `j` named `o`. Returns what stood in its place, for a caller that must undo it.
pub fn hear(r: Request, row: &mut [u32], j: ServerId, o: Option<Request>) -> Request
    requires { Places row.old × (1 ≤ j.0) × (2 * j.0 ≤ length row.old) }
    ensures { (result ≡ place_of row.old j) × (row.new ≡ heard_row r row.old j o) }
{
    let i = (j.0 as usize) - 1;
    let old = rows::request_at(row, i);
    if is_own(r, old) {
        return old;
    }
    if !is_current(r, o) {
        return old;
    }
    rows::put_request(row, i, place_of(o));
    old
}

// Lines 15 to 17: what the client of `r` sends to server `j`, which named `q`.
fn reply(r: Request, j: ServerId, q: Request) -> Message
    ensures { result ≡ reply_of r j q }
{
    let k = r.client;
    let t = r.timestamp;
    if q.client == k {
        return Message::Yield(k, j, t);
    }
    if ids::precedes(r, q) {
        return Message::Request(k, j, t);
    }
    Message::Inquiry(k, j, t)
}

// The same for the place `q` of server `j`, written at `at`; returns the place behind it. Nothing is sent for an empty place.
fn send_reply(r: Request, j: ServerId, q: Request, out: &mut [u8], at: usize) -> usize
    requires { at + size_of_all (replies r j (shown q)) ≤ length out.old }
    ensures { (result ≡ at + size_of_all (replies r j (shown q))) × (out.new ≡ sets out.old at (bytes_of_all (replies r j (shown q)))) }
{
    if is_empty(q) {
        return at;
    }
    wire::put(out, at, reply(r, j, q))
}

// Lines 14 to 17 for all of the first `n` places.
pub fn send_round(r: Request, row: &[u32], n: u16, out: &mut [u8])
    requires { Places row.now × (2 * n ≤ length row.now) × (message_bytes * count (map filled_of (responses_in row.now n)) ≤ length out.old) }
    ensures { out.new ≡ sets out.old 0 (bytes_of_all (round r 1 (responses_in row.now n))) }
{
    let mut at = 0;
    for i in 0..n {
        let q = rows::request_at(row, i as usize);
        at = send_reply(r, ServerId(i + 1), q, out, at);
    }
}
