// How messages and records cross to C: as 32-bit words. For the C interface, saved records and the simulation, which test lengths and room first.

#![tactic(auto)]

ghost use Rattle.std.specs.Prelude.{◌≡◌, [], ◌∷◌, ◌+◌, ◌≤◌, eqb, length};
ghost use Rattle.std.proofs.lemmas.List.Edits.{sets};
ghost use Rattle.ids.specs.Limits.{max_short};
ghost use Rattle.wire.specs.Format.{owner_client, owner_timestamp};
ghost use Rattle.words.specs.Messages.{fits, crossing, crossed_says, five_says, message_in, message_or, no_message};
ghost use Rattle.words.specs.Records.{server_head, client_head, max_word, fits_head, Headed, section_of, section_word, holds_server_of, holds_server, server_head_from, server_head_words, holds_client_of, holds_client, client_head_from, client_head_words};

use client_responses::Section;
use ids::{ClientId, MAX_SHORT, Request, ServerId, Timestamp};
use server_votes::Votes;
use wire::{Fields, Message};

// The numbers before the places of either record, and the words of a record.
pub const SERVER_HEAD: usize = 5;

pub const CLIENT_HEAD: usize = 6;

pub const SERVER_WORDS: usize = SERVER_HEAD + server::ROW_WORDS;

pub const CLIENT_WORDS: usize = CLIENT_HEAD + client::ROW_WORDS;

// One `&&` of the four was tried: it joins after each test, and the search does not take such a branch apart.
fn fit(kind: u32, client: u32, server: u32, owner: u32) -> bool
    ensures { result ≡ fits kind client server owner }
{
    if MAX_SHORT < kind {
        return false;
    }
    if MAX_SHORT < client {
        return false;
    }
    if MAX_SHORT < server {
        return false;
    }
    owner <= MAX_SHORT
}

fn fields_of_words(kind: u32, client: u32, server: u32, timestamp: u32, owner: u32) -> Fields
    requires { (kind ≤ max_short) × (client ≤ max_short) × (server ≤ max_short) × (owner ≤ max_short) }
    ensures { result ≡ record { kind = kind; client = client; server = server; timestamp = timestamp; owner = owner } }
{
    Fields {
        kind: kind as u16,
        client: client as u16,
        server: server as u16,
        timestamp,
        owner: owner as u16,
    }
}

// The numbers in five words, unless one is too large for its field.
pub fn cross(words: &[u32]) -> Option<Fields>
    ensures value { result ≡ crossing words.now }
    ensures numbers { crossed_says result ≡ five_says words.now }
{
    let [kind, client, server, timestamp, owner] = *words else {
        return None;
    };
    if !fit(kind, client, server, owner) {
        return None;
    }
    Some(fields_of_words(kind, client, server, timestamp, owner))
}

fn no_message() -> Message
    ensures { result ≡ no_message }
{
    Message::Request(ClientId(0), ServerId(0), Timestamp(0))
}

// The message that these words are; where they are none, one that every call refuses 5.
pub fn message_in(words: &[u32]) -> Message
    ensures { result ≡ message_or (message_in words.now) }
{
    match cross(words) {
        Some(f) if wire::valid_fields(f) => wire::message_of(f),
        _ => no_message(),
    }
}

// Whether three numbers fit fields of two bytes; for why not by one `&&`, see `fit`.
pub fn fits_head(a: u32, b: u32, c: u32) -> bool
    ensures { result ≡ fits_head a b c }
{
    if MAX_SHORT < a {
        return false;
    }
    if MAX_SHORT < b {
        return false;
    }
    c <= MAX_SHORT
}

// Whether the words are a head and a row of so many words.
fn has_row(words: &[u32], head: usize, row: usize) -> bool
    ensures { result ≡ eqb (length words.now) (head + row) }
{
    words.len() >= head && words.len() - head == row
}

// Whether the words are a server's record with a row of so many words, no number before the places too large for its field.
pub fn holds_server_of(words: &[u32], row: usize) -> bool
    ensures { result ≡ holds_server_of row words.now }
{
    has_row(words, SERVER_HEAD, row) && fits_head(words[0], words[1], words[2])
}

// Whether the words are a client's record with a row of so many words, no number before the places too large for its field; for why not by
// one `&&`, see `fit`.
pub fn holds_client_of(words: &[u32], row: usize) -> bool
    ensures { result ≡ holds_client_of row words.now }
{
    if !has_row(words, CLIENT_HEAD, row) {
        return false;
    }
    if 2 < words[3] {
        return false;
    }
    fits_head(words[0], words[1], words[2])
}

// The same with the row of a record by value, as a C host keeps it.
pub fn holds_server(words: &[u32]) -> bool
    ensures { result ≡ holds_server words.now }
{
    holds_server_of(words, server::ROW_WORDS)
}

pub fn holds_client(words: &[u32]) -> bool
    ensures { result ≡ holds_client words.now }
{
    holds_client_of(words, client::ROW_WORDS)
}

// The head of the server's record whose first five words these are.
pub fn server_head(words: &[u32]) -> server::Head
    requires { Headed server_head words.now }
    ensures { result ≡ server_head_from words.now }
{
    server::Head {
        n: words[0] as u16,
        id: ServerId(words[1] as u16),
        votes: Votes {
            owner: wire::owner_of(ClientId(words[2] as u16), Timestamp(words[3])),
            len: words[4] as usize,
        },
    }
}

fn section_of(w: u32) -> Section
    ensures { result ≡ section_of w }
{
    match w {
        0 => Section::Remainder,
        1 => Section::Trying,
        _ => Section::Critical,
    }
}

fn section_word(s: Section) -> u32
    ensures { result ≡ section_word s }
{
    match s {
        Section::Remainder => 0,
        Section::Trying => 1,
        Section::Critical => 2,
    }
}

// The head of the client's record whose first six words these are.
pub fn client_head(words: &[u32]) -> client::Head
    requires { Headed client_head words.now }
    ensures { result ≡ client_head_from words.now }
{
    client::Head {
        n: words[0] as u16,
        m: words[1] as u16,
        id: ClientId(words[2] as u16),
        section: section_of(words[3]),
        timestamp: Timestamp(words[4]),
        seen: Timestamp(words[5]),
    }
}

fn put_five(words: &mut [u32], a: u32, b: u32, c: u32, d: u32, e: u32)
    requires { 5 ≤ length words.old }
    ensures { words.new ≡ sets words.old 0 (a ∷ b ∷ c ∷ d ∷ e ∷ []) }
{
    words[0] = a;
    words[1] = b;
    words[2] = c;
    words[3] = d;
    words[4] = e;
}

fn owner_client(o: Option<Request>) -> u32
    ensures { result ≡ owner_client o }
{
    match o {
        None => 0,
        Some(q) => q.client.0 as u32,
    }
}

fn owner_timestamp(o: Option<Request>) -> u32
    ensures { result ≡ owner_timestamp o }
{
    match o {
        None => 0,
        Some(q) => q.timestamp.0,
    }
}

// Writes the head of a server's record in the first five words.
pub fn put_server_head(words: &mut [u32], h: server::Head)
    requires { (server_head ≤ length words.old) × (h.votes.len ≤ max_word) }
    ensures { words.new ≡ sets words.old 0 (server_head_words h) }
{
    put_five(
        words,
        h.n as u32,
        h.id.0 as u32,
        owner_client(h.votes.owner),
        owner_timestamp(h.votes.owner),
        h.votes.len as u32,
    );
}

// Writes the head of a client's record in the first six words.
pub fn put_client_head(words: &mut [u32], h: client::Head)
    requires { client_head ≤ length words.old }
    ensures { words.new ≡ sets words.old 0 (client_head_words h) }
{
    put_five(
        words,
        h.n as u32,
        h.m as u32,
        h.id.0 as u32,
        section_word(h.section),
        h.timestamp.0,
    );
    words[5] = h.seen.0;
}
