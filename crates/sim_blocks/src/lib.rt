// A client and a server of a simulation as words: a block each, lent as its own slice.
// For the simulation, whose state is valid: but for the two tests, the functions ask what a valid block has.

#![tactic(auto)]

ghost use Rattle.std.specs.Prelude.{◌≡◌, true, ◌&&◌, ◌≤◌, ◌+◌, ◌*◌, length, take, drop, set, eqb, leb, if◌then◌else◌};
ghost use Rattle.std.proofs.lemmas.List.Edits.{sets};
ghost use Rattle.ids.specs.Lists.{every};
ghost use Rattle.words.specs.Records.{server_head, client_head, max_word, client_head_from, server_head_from, server_from, server_words, client_from, client_words};
ghost use Rattle.client.specs.Record as client;
ghost use Rattle.server.specs.Record as server;
ghost use Rattle.system.specs.Places.{in_epoch, is_inside};
ghost use Rattle.sim_blocks.specs.Blocks.{response_words, queue_words, client_record_size, holds_client_record, holds_server_record, client_record, flags, flagged, cleared, server_record, client_place, server_place, named_pair, fits_client, fits_flags, valid_client_block, fits_server, valid_server_block, emptied, client_block, server_block};
ghost use Rattle.system.specs.Limits.{system_servers};
ghost use Rattle.rows.specs.Rows.{requests_in};

use ids::{ClientId, ServerId};
use words::{CLIENT_HEAD, SERVER_HEAD};

// The rows of a simulation's records: a place for each server, and one for each client.
pub const RESPONSE_WORDS: usize = 2 * system::MAX_SERVERS as usize;

pub const QUEUE_WORDS: usize = 2 * system::MAX_CLIENTS as usize;

const CLIENT_RECORD: usize = CLIENT_HEAD + RESPONSE_WORDS;

const SERVER_RECORD: usize = SERVER_HEAD + QUEUE_WORDS;

// A flag for each server; where the records' rows and the flags begin; the words of a client's block and of a server's.
const FLAGS: usize = system::MAX_SERVERS as usize;

const RESPONSES_FROM: usize = 1 + CLIENT_HEAD;

const QUEUE_FROM: usize = 1 + SERVER_HEAD;

const FLAGS_FROM: usize = 1 + CLIENT_RECORD;

pub const CLIENT_BLOCK: usize = FLAGS_FROM + FLAGS;

pub const SERVER_BLOCK: usize = 1 + SERVER_RECORD;

// Whether no word is above `most`.
fn at_most(words: &[u32], most: u32) -> bool
    ensures { result ≡ every (λ x. leb x most) words.now }
{
    words.iter().all(|x| *x <= most)
}

// Whether the first `count` requests behind a record's head of so many words are of clients 0 to `clients`.
fn requests_named(words: &[u32], head: usize, count: usize, clients: u32) -> bool
    requires { head + 2 * count ≤ length words.now }
    ensures { result ≡ every (named_pair clients) (take count (requests_in (drop head words.now))) }
{
    (0..count).all(|i| words[head + 2 * i] <= clients)
}

fn fits_client(words: &[u32], n: u32, m: u32, clients: u32, k: ClientId) -> bool
    requires { holds_client_record words.now ≡ true }
    ensures { result ≡ fits_client n m clients k (client_from words.now) }
{
    let h = words::client_head(words);
    if !client::valid_row(h, &words[CLIENT_HEAD..CLIENT_RECORD]) {
        return false;
    }
    if words[0] != n {
        return false;
    }
    if words[1] != m {
        return false;
    }
    if words[2] != k.0 as u32 {
        return false;
    }
    requests_named(words, CLIENT_HEAD, n as usize, clients)
}

fn fits_flags(words: &[u32], n: u32, running: bool) -> bool
    requires { (length words.now ≡ system_servers) × (n ≤ system_servers) }
    ensures { result ≡ fits_flags n running words.now }
{
    if !at_most(words, 1) {
        return false;
    }
    let first = n as usize;
    if !at_most(&words[first..FLAGS], 0) {
        return false;
    }
    if running {
        return true;
    }
    at_most(words, 0)
}

// Whether the client lives.
pub fn is_living(b: &[u32]) -> bool
    requires { length b.now ≡ client_block }
    ensures { result ≡ (client_place b.now).living }
{
    b[0] == 1
}

// Whether the client lives and is in the critical section.
pub fn is_inside(b: &[u32]) -> bool
    requires { length b.now ≡ client_block }
    ensures { result ≡ is_inside (client_place b.now) }
{
    if b[0] == 1 {
        return 2 <= b[4];
    }
    false
}

// Whether the client is in an epoch: it lives, and is trying or in the critical section.
fn in_epoch(b: &[u32]) -> bool
    requires { length b.now ≡ client_block }
    ensures { result ≡ in_epoch (client_place b.now) }
{
    if b[0] != 1 {
        return false;
    }
    b[4] != 0
}

// What is asked of the record and of the flags.
fn fits_client_block(b: &[u32], n: u32, m: u32, clients: u32, k: ClientId) -> bool
    requires { (length b.now ≡ client_block) × (holds_client_record (client_record b.now) ≡ true) }
    ensures { result ≡ (fits_client n m clients k (client_from (client_record b.now)) && fits_flags n (in_epoch (client_place b.now)) (flags b.now)) }
{
    if !fits_client(&b[1..FLAGS_FROM], n, m, clients, k) {
        return false;
    }
    let running = in_epoch(b);
    fits_flags(&b[FLAGS_FROM..CLIENT_BLOCK], n, running)
}

// Whether the words are block `k` of a simulation with `n` servers, threshold `m` and so many clients.
pub fn valid_client_block(b: &[u32], n: u32, m: u32, clients: u32, k: ClientId) -> bool
    ensures { result ≡ valid_client_block n m clients k b.now }
{
    if b.len() != CLIENT_BLOCK {
        return false;
    }
    if 1 < b[0] {
        return false;
    }
    if !words::holds_client_of(&b[1..FLAGS_FROM], RESPONSE_WORDS) {
        return false;
    }
    fits_client_block(b, n, m, clients, k)
}

// The head of the client's record.
pub fn client_head(b: &[u32]) -> client::Head
    requires { (length b.now ≡ client_block) × (holds_client_record (client_record b.now) ≡ true) }
    ensures { result ≡ client_head_from (client_record b.now) }
{
    words::client_head(&b[1..FLAGS_FROM])
}

// The row of the client's responses, copied.
pub fn client_row(b: &[u32], row: &mut [u32])
    requires { (length b.now ≡ client_block) × (length row.old ≡ response_words) }
    ensures { row.new ≡ drop client_head (client_record b.now) }
{
    rows::copy(&b[RESPONSES_FROM..FLAGS_FROM], row);
}

// Writes the client's record.
pub fn put_client(b: &mut [u32], h: client::Head, row: &[u32])
    requires { (length b.old ≡ client_block) × (length row.now ≡ response_words) }
    ensures { b.new ≡ sets b.old 1 (client_words (client.client_of h row.now)) }
{
    words::put_client_head(&mut b[1..FLAGS_FROM], h);
    rows::copy(row, &mut b[RESPONSES_FROM..FLAGS_FROM]);
}

// No server counts any more.
pub fn clear_flags(b: &mut [u32])
    requires { length b.old ≡ client_block }
    ensures { b.new ≡ cleared b.old }
{
    b[FLAGS_FROM..CLIENT_BLOCK].fill(0);
}

// The client falls: it does not live, and its epoch is over.
pub fn fall(b: &mut [u32])
    requires { length b.old ≡ client_block }
    ensures { b.new ≡ cleared (set b.old 0 0) }
{
    b[0] = 0;
    clear_flags(b);
}

// Writes the flag of server `j`.
pub fn put_flag(b: &mut [u32], j: ServerId, x: u32)
    requires { (length b.old ≡ client_block) × (1 ≤ j.0) × (j.0 ≤ system_servers) }
    ensures { b.new ≡ set b.old (client_record_size + j.0) x }
{
    let at = CLIENT_RECORD + j.0 as usize;
    b[at] = x;
}

// Server `j` went down: it counts if the client is in an epoch.
pub fn mark_down(b: &mut [u32], j: ServerId)
    requires { (length b.old ≡ client_block) × (1 ≤ j.0) × (j.0 ≤ system_servers) }
    ensures { b.new ≡ if in_epoch (client_place b.old) then set b.old (client_record_size + j.0) 1 else b.old }
{
    if in_epoch(b) {
        put_flag(b, j, 1);
    }
}

// How many flags are set. It counts in 32 bits up to a fixed number, so that the loop becomes vector code: with the library's count, which goes
// in 64 bits, a script of restarts took half as long again.
fn flags_set(words: &[u32]) -> u32
    requires { length words.now ≡ system_servers }
    ensures { result ≡ length (flagged 1 words.now) }
{
    let mut count = 0;
    for i in 0..FLAGS {
        count += u32::from(words[i] != 0);
    }
    count
}

// How many servers were down in the client's epoch.
pub fn count_flags(b: &[u32]) -> u32
    requires { length b.now ≡ client_block }
    ensures { result ≡ length (client_place b.now).downs }
{
    flags_set(&b[FLAGS_FROM..CLIENT_BLOCK])
}

fn fits_server(words: &[u32], n: u32, clients: u32, j: ServerId) -> bool
    requires { holds_server_record words.now ≡ true }
    ensures { result ≡ fits_server n clients j (server_from words.now) }
{
    let h = words::server_head(words);
    if !server::valid_row(h, &words[SERVER_HEAD..SERVER_RECORD]) {
        return false;
    }
    if words[0] != n {
        return false;
    }
    if words[1] != j.0 as u32 {
        return false;
    }
    if clients < words[2] {
        return false;
    }
    requests_named(words, SERVER_HEAD, words[4] as usize, clients)
}

// Whether the words are block `j` of a simulation with `n` servers and so many clients.
pub fn valid_server_block(b: &[u32], n: u32, clients: u32, j: ServerId) -> bool
    ensures { result ≡ valid_server_block n clients j b.now }
{
    if b.len() != SERVER_BLOCK {
        return false;
    }
    if 1 < b[0] {
        return false;
    }
    let words = &b[1..SERVER_BLOCK];
    if !words::holds_server_of(words, QUEUE_WORDS) {
        return false;
    }
    fits_server(words, n, clients, j)
}

// Whether the server is up.
pub fn is_up(b: &[u32]) -> bool
    requires { length b.now ≡ server_block }
    ensures { result ≡ (server_place b.now).up }
{
    b[0] == 1
}

// The head of the server's record.
pub fn server_head(b: &[u32]) -> server::Head
    requires { (length b.now ≡ server_block) × (holds_server_record (server_record b.now) ≡ true) }
    ensures { result ≡ server_head_from (server_record b.now) }
{
    words::server_head(&b[1..SERVER_BLOCK])
}

// The row of the server's queue, copied.
pub fn server_row(b: &[u32], row: &mut [u32])
    requires { (length b.now ≡ server_block) × (length row.old ≡ queue_words) }
    ensures { row.new ≡ drop server_head (server_record b.now) }
{
    rows::copy(&b[QUEUE_FROM..SERVER_BLOCK], row);
}

// Writes the server's record.
pub fn put_server(b: &mut [u32], h: server::Head, row: &[u32])
    requires { (length b.old ≡ server_block) × (length row.now ≡ queue_words) × (h.votes.len ≤ max_word) }
    ensures { b.new ≡ sets b.old 1 (server_words (server.server_of h row.now)) }
{
    words::put_server_head(&mut b[1..SERVER_BLOCK], h);
    rows::copy(row, &mut b[QUEUE_FROM..SERVER_BLOCK]);
}

// The server goes down, and forgets everything.
pub fn sink(b: &mut [u32])
    requires { (length b.old ≡ server_block) × (holds_server_record (server_record b.old) ≡ true) }
    ensures { b.new ≡ set (sets b.old 1 (server_words (emptied (server_from (server_record b.old))))) 0 0 }
{
    let h = server_head(b);
    let row = [0u32; QUEUE_WORDS];
    put_server(b, server::empty_head(h.n, h.id), &row);
    b[0] = 0;
}

// The server comes up, as it went down.
pub fn rise(b: &mut [u32])
    requires { length b.old ≡ server_block }
    ensures { b.new ≡ set b.old 0 1 }
{
    b[0] = 1;
}
