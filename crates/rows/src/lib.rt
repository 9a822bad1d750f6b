// Requests in a lent row of words: two words a place, client and timestamp, as many places as the caller lends. A place read and written, a
// queue in the first places with zeros behind it, and the test of a row that a host lends. The functions with a `requires` are for the two
// machines, which have tested their rows.

#![tactic(auto)]

ghost use Rattle.std.specs.Prelude.{◌≡◌, ◌&&◌, ◌∷◌, ◌++◌, suc, ◌+◌, ◌-◌, ◌*◌, ◌<◌, ◌≤◌, eqb, leb, length, get_or, take, drop, replicate};
ghost use Rattle.ids.specs.Limits.{max_client};
ghost use Rattle.ids.specs.Requests.{no_request};
ghost use Rattle.rows.specs.Rows.{requests_in, queue_of, fits_place, Places, Put, Padded};
ghost use Rattle.rows.specs.Good.{empty, good_row};
ghost use Rattle.rows.specs.Inner.{miss, misses};
ghost use Rattle.rows.specs.Queue.{insert as insert_of, without};
ghost use Rattle.rows.specs.Queues.{is_client, matching, first, Holds};

use ids::{ClientId, Request, Timestamp};

// What a search through a queue looks for: a request's client, the request itself, or a request behind it. An enum and no closure, since `matching` defines
// the three tests, by which the contracts of the machines speak.
#[derive(Clone, Copy)]
pub enum Wanted {
    Client,
    Pair,
    Later,
}

pub fn nobody() -> Request
    ensures { result ≡ no_request }
{
    Request {
        client: ClientId(0),
        timestamp: Timestamp(0),
    }
}

pub fn request_at(row: &[u32], i: usize) -> Request
    requires { Places row.now × (2 * i + 2 ≤ length row.now) }
    ensures { result ≡ get_or (requests_in row.now) i no_request }
{
    Request {
        client: ClientId(row[2 * i] as u16),
        timestamp: Timestamp(row[2 * i + 1]),
    }
}

pub fn put_request(row: &mut [u32], i: usize, r: Request)
    requires { 2 * i + 2 ≤ length row.old }
    ensures { Put row.old row.new i r }
{
    row[2 * i] = r.client.0 as u32;
    row[2 * i + 1] = r.timestamp.0;
}

// The request at place `from` stands at place `to` too. Places move by loops over this, since `copy_within` would make the archive for C need
// `memmove`, which a host may lack.
fn copy_place(row: &mut [u32], from: usize, to: usize)
    requires { (2 * from + 2 ≤ length row.old) × (2 * to + 2 ≤ length row.old) }
    ensures { Put row.old row.new to (get_or (requests_in row.old) from no_request) }
{
    row[2 * to] = row[2 * from];
    row[2 * to + 1] = row[2 * from + 1];
}

fn matches(wanted: Wanted, r: Request, x: Request) -> bool
    ensures { result ≡ matching wanted r x }
{
    match wanted {
        Wanted::Client => x.client == r.client,
        Wanted::Pair => ids::same_request(x, r),
        Wanted::Later => ids::precedes(r, x),
    }
}

// The first place from `from` on whose request is wanted, or the length.
pub fn find(row: &[u32], len: usize, wanted: Wanted, r: Request, from: usize) -> usize
    requires { (from ≤ len) × Padded row.now len }
    ensures { result ≡ from + first (matching wanted r) (drop from (queue_of row.now len)) }
{
    for i in from..len {
        if matches(wanted, r, request_at(row, i)) {
            return i;
        }
    }
    len
}

// The place of client `k`, or the length.
pub fn search(row: &[u32], len: usize, k: ClientId) -> usize
    requires { Padded row.now len }
    ensures { result ≡ first (is_client k) (queue_of row.now len) }
{
    let r = Request {
        client: k,
        timestamp: Timestamp(0),
    };
    find(row, len, Wanted::Client, r, 0)
}

// `r` stands at place `at`: those from there on move back by one.
fn insert_at(row: &mut [u32], len: usize, at: usize, r: Request)
    requires { (at ≤ len) × (2 * (len + 1) ≤ length row.old) × Padded row.old len }
    ensures { Holds row.old row.new (len + 1) (take at (queue_of row.old len) ++ r ∷ drop at (queue_of row.old len)) }
{
    for i in (at..len).rev() {
        copy_place(row, i, i + 1);
    }
    put_request(row, at, r);
}

// The queue with `r` in its order, and its length.
pub fn insert(row: &mut [u32], len: usize, r: Request) -> usize
    requires { (2 * (len + 1) ≤ length row.old) × Padded row.old len }
    ensures { (result ≡ len + 1) × Holds row.old row.new (len + 1) (insert_of r (queue_of row.old len)) }
{
    let at = find(row, len, Wanted::Later, r, 0);
    insert_at(row, len, at, r);
    len + 1
}

// The queue without the request at place `at`: those behind it move up by one, and the place that is freed is empty.
pub fn remove(row: &mut [u32], len: usize, at: usize)
    requires { (at < len) × Padded row.old len }
    ensures { Holds row.old row.new (len - 1) (take at (queue_of row.old len) ++ drop (suc at) (queue_of row.old len)) }
{
    for i in at..len - 1 {
        copy_place(row, i + 1, i);
    }
    put_request(row, len - 1, nobody());
}

// The queue without `r`, if it is there, and its length.
pub fn remove_request(row: &mut [u32], len: usize, r: Request) -> usize
    requires { Padded row.old len }
    ensures { Holds row.old row.new result (without r (queue_of row.old len)) }
{
    let at = find(row, len, Wanted::Pair, r, 0);
    if at < len {
        remove(row, len, at);
        return len - 1;
    }
    len
}

// The words of one row in another of the same length, by a loop, since `copy_from_slice` would need `memmove` too.
pub fn copy(from: &[u32], to: &mut [u32])
    requires { length from.now ≡ length to.old }
    ensures { to.new ≡ from.now }
{
    for i in 0..from.len() {
        to[i] = from[i];
    }
}

// Every word 0.
pub fn zero(words: &mut [u32])
    ensures { words.new ≡ replicate (length words.old) 0 }
{
    words.fill(0);
}

// Every place empty, where only the first `len` are in use: those behind them are not touched.
pub fn clear(row: &mut [u32], len: usize)
    requires { Padded row.old len }
    ensures { row.new ≡ replicate (length row.old) 0 }
{
    zero(&mut row[..2 * len]);
}

// The test of a row. Its loops count and never leave early, so that they become vector code.
fn wide(client: u32) -> usize
    ensures { result ≡ miss (leb client max_client) }
{
    usize::from(client > ids::MAX_CLIENT)
}

fn used(client: u32, timestamp: u32) -> usize
    ensures { result ≡ miss (eqb client 0 && eqb timestamp 0) }
{
    usize::from(client != 0 || timestamp != 0)
}

// How many of the row's clients do not fit their field.
fn wide_places(row: &[u32], n: usize) -> usize
    requires { length row.now ≡ 2 * n }
    ensures { result ≡ misses fits_place (requests_in row.now) }
{
    let mut bad = 0;
    for i in 0..n {
        bad += wide(row[2 * i]);
    }
    bad
}

// How many of the places from `len` on are not empty.
fn used_places(row: &[u32], len: usize, n: usize) -> usize
    requires { (length row.now ≡ 2 * n) × (len ≤ n) }
    ensures { result ≡ misses empty (drop len (requests_in row.now)) }
{
    let mut bad = 0;
    for i in len..n {
        bad += used(row[2 * i], row[2 * i + 1]);
    }
    bad
}

// Whether a host's words are a row in good order with `len` places in use.
pub fn good_row(row: &[u32], len: usize) -> bool
    ensures { result ≡ good_row row.now len }
{
    let n = row.len() / 2;
    if 2 * n != row.len() {
        return false;
    }
    if n < len {
        return false;
    }
    // Only the places in use are tested for their width: those behind them must be empty, which is tested below.
    if wide_places(&row[..2 * len], len) != 0 {
        return false;
    }
    used_places(row, len, n) == 0
}
