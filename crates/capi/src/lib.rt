// The C interface: numbers and slices in, 0 or a refusal's number out. A slice is a pointer, then a length.
// The crate `sigma` exports these functions, and include/sigma.h declares them.

#![tactic(auto)]

ghost use Rattle.std.specs.Prelude.{◌≡◌, Ok, [], ◌∷◌, ◌++◌, ◌+◌, ◌≤◌, length};
ghost use Rattle.std.proofs.lemmas.List.Edits.{sets};
ghost use Rattle.wire.specs.Format.{words as words_of};
ghost use Rattle.wire.specs.Calls.{read_of};
ghost use Rattle.server.specs.Record as server;
ghost use Rattle.server.specs.Rows.{Turns};
ghost use Rattle.client.specs.Record as client;
ghost use Rattle.client.specs.Steps.{Answers};
ghost use Rattle.words.specs.Messages.{message_in};
ghost use Rattle.words.specs.Records.{max_word, server_head, client_head, server_size, client_size, server_words, client_head_words, client_words};
ghost use Rattle.capi.specs.Calls.{read_size, read_code, read_words, written_code, write_code, write_buffer};
ghost use Rattle.capi.specs.Steps.{lent, Leaves, code_of, record_into, server_message, server_suspect, server_check, client_message, client_begin, client_exit, server_new, client_new, server_upgrade, client_upgrade, on_server, on_client};
ghost use Rattle.capi.specs.Inner.{answer_code, answer_record, answer_counts, short_code, short_answer, Storable, turned_words, accepted_words, server_outcome, client_outcome};

use ids::{ClientId, Refusal, ServerId};
use wire::{Fields, Message, Sent};

// The words that a message that was read is given in: its five, and the bytes it took.
pub const READ_WORDS: usize = 6;

// A message's words and the bytes it took, at the start of words that have room for them. For `sigma_read` and `capi_packet`, which test that.
pub fn put_words(words: &mut [u32], f: Fields, used: u32)
    requires { read_size ≤ length words.old }
    ensures { words.new ≡ sets words.old 0 (words_of f ++ used ∷ []) }
{
    words[0] = f.kind as u32;
    words[1] = f.client as u32;
    words[2] = f.server as u32;
    words[3] = f.timestamp;
    words[4] = f.owner as u32;
    words[5] = used;
}

// Reads the message that `bytes` begins with: its five words and the bytes it took, six words in all.
pub fn sigma_read(bytes: &[u8], words: &mut [u32]) -> u32
    ensures { (result ≡ read_code (read_of bytes.now) (length words.old)) × (words.new ≡ read_words (read_of bytes.now) words.old) }
{
    match wire::read_fields(bytes) {
        Ok((f, used)) => {
            if words.len() < READ_WORDS {
                return ids::code_of(Refusal::RoomShort);
            }
            put_words(words, f, used as u32);
            0
        }
        Err(e) => ids::code_of(e),
    }
}

fn written_code(w: Result<usize, Refusal>) -> u32
    ensures { result ≡ written_code w }
{
    match w {
        Ok(_) => 0,
        Err(e) => ids::code_of(e),
    }
}

// Writes the message of five words at the start of `out`.
pub fn sigma_write(words: &[u32], out: &mut [u8]) -> u32
    ensures { (result ≡ write_code (message_in words.now) (length out.old)) × (out.new ≡ write_buffer (message_in words.now) out.old) }
{
    match words::cross(words) {
        Some(f) => written_code(wire::write_fields(f, out)),
        None => ids::code_of(Refusal::NumberOutOfRange),
    }
}

// The steps of a server's record, and of a client's. Enums and no closures: `server_outcome` and `client_outcome` define by their cases what a call
// gives.
#[derive(Clone, Copy)]
pub enum ServerCall {
    Message(Message),
    Suspect,
    Check,
}

#[derive(Clone, Copy)]
pub enum ClientCall {
    Message(Message),
    Begin,
    Exit,
}

// Writes a row behind a head of so many words.
fn put_row(state: &mut [u32], head: usize, row: &[u32])
    requires { head + length row.now ≤ length state.old }
    ensures { state.new ≡ sets state.old head row.now }
{
    let end = head + row.len();
    rows::copy(row, &mut state[head..end]);
}

// Writes a record in the first words: its head, and the row behind it.
fn put_server(state: &mut [u32], h: server::Head, row: &[u32])
    requires { (server_head + length row.now ≤ length state.old) × (h.votes.len ≤ max_word) }
    ensures { state.new ≡ sets state.old 0 (server_words (server.server_of h row.now)) }
{
    words::put_server_head(state, h);
    put_row(state, words::SERVER_HEAD, row);
}

fn put_client(state: &mut [u32], h: client::Head, row: &[u32])
    requires { client_head + length row.now ≤ length state.old }
    ensures { state.new ≡ sets state.old 0 (client_words (client.client_of h row.now)) }
{
    words::put_client_head(state, h);
    put_row(state, words::CLIENT_HEAD, row);
}

fn put_counts(sent: &mut [u32], count: usize, bytes: usize)
    requires { (2 ≤ length sent.old) × (count ≤ max_word) × (bytes ≤ max_word) }
    ensures { sent.new ≡ sets sent.old 0 (count ∷ bytes ∷ []) }
{
    sent[0] = count as u32;
    sent[1] = bytes as u32;
}

fn server_step(h: server::Head, row: &mut [u32], call: ServerCall) -> server::Turned
    ensures { Turns h row.old (server_outcome call (server.server_of h row.old)) result row.new }
{
    match call {
        ServerCall::Message(m) => server::message_row(h, row, m),
        ServerCall::Suspect => server::suspect_row(h, row),
        ServerCall::Check => server::check_row(h, row),
    }
}

// An accepted step's record and counts are stored; a refused one's number is returned.
fn server_store(
    a: Result<Sent, Refusal>,
    h: server::Head,
    row: &[u32],
    state: &mut [u32],
    sent: &mut [u32],
) -> u32
    requires { (server_head + length row.now ≤ length state.old) × (2 ≤ length sent.old) × (h.votes.len ≤ max_word) × Storable a }
    ensures { (result ≡ answer_code a) × (state.new ≡ answer_record (server_words (server.server_of h row.now)) state.old a) × (sent.new ≡ answer_counts sent.old a) }
{
    match a {
        Ok(done) => {
            put_server(state, h, row);
            put_counts(sent, done.messages, done.bytes);
            0
        }
        Err(e) => ids::code_of(e),
    }
}

// A step that was made: its messages are sent and its record kept, or, for want of room, neither.
fn server_send(
    t: server::Turned,
    row: &[u32],
    state: &mut [u32],
    out: &mut [u8],
    sent: &mut [u32],
) -> u32
    requires { (server_head + length row.now ≤ length state.old) × (t.head.votes.len ≤ max_word) }
    ensures { Leaves (lent out.old sent.old (accepted_words t row.now)) result state.old state.new out.old out.new sent.old sent.new }
{
    if sent.len() < 2 {
        return ids::code_of(Refusal::RoomShort);
    }
    let first = t.first;
    let second = t.second;
    let third = t.third;
    let answer = server::send(first, second, third, out);
    let head = t.head;
    server_store(answer, head, row, state, sent)
}

// A refused step's number, or what becomes of one that was made.
fn server_finish(
    t: server::Turned,
    row: &[u32],
    state: &mut [u32],
    out: &mut [u8],
    sent: &mut [u32],
) -> u32
    requires { (server_head + length row.now ≤ length state.old) × (t.ruling ≡ Ok tt → t.head.votes.len ≤ max_word) }
    ensures { Leaves (lent out.old sent.old (turned_words t row.now)) result state.old state.new out.old out.new sent.old sent.new }
{
    match t.ruling {
        Ok(()) => server_send(t, row, state, out, sent),
        Err(e) => ids::code_of(e),
    }
}

// A server's step, on a copy of its row: a refused one drops the copy.
fn server_call(call: ServerCall, state: &mut [u32], out: &mut [u8], sent: &mut [u32]) -> u32
    ensures { Leaves (lent out.old sent.old (on_server state.old (server_outcome call))) result state.old state.new out.old out.new sent.old sent.new }
{
    if !words::holds_server(state) {
        return ids::code_of(Refusal::InvalidRecord);
    }
    let h = words::server_head(state);
    let mut row = [0u32; server::ROW_WORDS];
    rows::copy(&state[words::SERVER_HEAD..words::SERVER_WORDS], &mut row);
    let t = server_step(h, &mut row, call);
    server_finish(t, &row, state, out, sent)
}

fn client_step(h: client::Head, row: &mut [u32], call: ClientCall, out: &mut [u8]) -> client::Turned
    ensures { Answers h row.old (client_outcome call (client.client_of h row.old)) out.old result row.new out.new }
{
    match call {
        ClientCall::Message(m) => client::message_row(h, row, m, out),
        ClientCall::Begin => client::begin_row(h, row, out),
        ClientCall::Exit => client::exit_row(h, row, out),
    }
}

// The answer's number where there is no room for the counts: 6, unless the step is refused otherwise.
fn short_answer(a: Result<Sent, Refusal>) -> u32
    ensures { result ≡ short_answer a }
{
    match a {
        Ok(_) => ids::code_of(Refusal::RoomShort),
        Err(e) => ids::code_of(e),
    }
}

// The number of a call that has no room for the counts: the step is made on a copy, and what it would send goes nowhere.
fn client_short(h: client::Head, row: &[u32], call: ClientCall) -> u32
    requires { length row.now ≡ client.row_words }
    ensures { result ≡ short_code (client_outcome call (client.client_of h row.now)) }
{
    let mut spare = [0u32; client::ROW_WORDS];
    rows::copy(row, &mut spare);
    let mut nowhere = [0u8; 1];
    let t = client_step(h, &mut spare, call, &mut nowhere);
    let answer = t.answer;
    short_answer(answer)
}

// An accepted step's head and counts are stored, its row stands already; a refused one's number is returned.
fn client_finish(t: client::Turned, state: &mut [u32], sent: &mut [u32]) -> u32
    requires { (client_head ≤ length state.old) × (2 ≤ length sent.old) × Storable t.answer }
    ensures { (result ≡ answer_code t.answer) × (state.new ≡ answer_record (client_head_words t.head) state.old t.answer) × (sent.new ≡ answer_counts sent.old t.answer) }
{
    let answer = t.answer;
    match answer {
        Ok(done) => {
            let h = t.head;
            words::put_client_head(state, h);
            put_counts(sent, done.messages, done.bytes);
            0
        }
        Err(e) => ids::code_of(e),
    }
}

// A client's step, on its row where it stands: a refused one leaves it as it was.
fn client_call(call: ClientCall, state: &mut [u32], out: &mut [u8], sent: &mut [u32]) -> u32
    ensures { Leaves (lent out.old sent.old (on_client state.old (client_outcome call))) result state.old state.new out.old out.new sent.old sent.new }
{
    if !words::holds_client(state) {
        return ids::code_of(Refusal::InvalidRecord);
    }
    let h = words::client_head(state);
    if sent.len() < 2 {
        return client_short(h, &state[words::CLIENT_HEAD..words::CLIENT_WORDS], call);
    }
    let t = client_step(
        h,
        &mut state[words::CLIENT_HEAD..words::CLIENT_WORDS],
        call,
        out,
    );
    client_finish(t, state, sent)
}

// The server takes a REQUEST, YIELD, RELEASE or INQUIRY. Refused 21, 5, 13, 14, 6.
pub fn sigma_server_message(
    state: &mut [u32],
    message: &[u32],
    out: &mut [u8],
    sent: &mut [u32],
) -> u32
    ensures { Leaves (lent out.old sent.old (server_message state.old message.now)) result state.old state.new out.old out.new sent.old sent.new }
{
    let m = words::message_in(message);
    server_call(ServerCall::Message(m), state, out, sent)
}

// The owner is suspected to have crashed. Refused 21, 15, 6.
pub fn sigma_server_suspect(state: &mut [u32], out: &mut [u8], sent: &mut [u32]) -> u32
    ensures { Leaves (lent out.old sent.old (server_suspect state.old)) result state.old state.new out.old out.new sent.old sent.new }
{
    server_call(ServerCall::Suspect, state, out, sent)
}

// CHECK to the owner. Refused 21, 6.
pub fn sigma_server_check(state: &mut [u32], out: &mut [u8], sent: &mut [u32]) -> u32
    ensures { Leaves (lent out.old sent.old (server_check state.old)) result state.old state.new out.old out.new sent.old sent.new }
{
    server_call(ServerCall::Check, state, out, sent)
}

// The client starts trying. Refused 21, 10, 11, 6.
pub fn sigma_client_begin(state: &mut [u32], out: &mut [u8], sent: &mut [u32]) -> u32
    ensures { Leaves (lent out.old sent.old (client_begin state.old)) result state.old state.new out.old out.new sent.old sent.new }
{
    client_call(ClientCall::Begin, state, out, sent)
}

// The client leaves its critical section. Refused 21, 10, 6.
pub fn sigma_client_exit(state: &mut [u32], out: &mut [u8], sent: &mut [u32]) -> u32
    ensures { Leaves (lent out.old sent.old (client_exit state.old)) result state.old state.new out.old out.new sent.old sent.new }
{
    client_call(ClientCall::Exit, state, out, sent)
}

// The client takes a RESPONSE or CHECK. Refused 21, 5, 12, 6.
pub fn sigma_client_message(
    state: &mut [u32],
    message: &[u32],
    out: &mut [u8],
    sent: &mut [u32],
) -> u32
    ensures { Leaves (lent out.old sent.old (client_message state.old message.now)) result state.old state.new out.old out.new sent.old sent.new }
{
    let m = words::message_in(message);
    client_call(ClientCall::Message(m), state, out, sent)
}

// A new record's words are stored; the number of one that was refused is returned. What `server` and `client` give are two types: one function
// for both would take the storing as a closure, and is no plainer.
fn server_made(r: server::Stepped, state: &mut [u32]) -> u32
    requires { (server_size ≤ length state.old) × (length r.server.row ≡ server.row_words) × (r.server.head.votes.len ≤ max_word) }
    ensures { (result ≡ answer_code r.answer) × (state.new ≡ answer_record (server_words r.server) state.old r.answer) }
{
    let answer = r.answer;
    match answer {
        Ok(_) => {
            let s = r.server;
            let head = s.head;
            let row = s.row;
            put_server(state, head, &row);
            0
        }
        Err(e) => ids::code_of(e),
    }
}

fn client_made(r: client::Stepped, state: &mut [u32]) -> u32
    requires { (client_size ≤ length state.old) × (length r.client.row ≡ client.row_words) }
    ensures { (result ≡ answer_code r.answer) × (state.new ≡ answer_record (client_words r.client) state.old r.answer) }
{
    let answer = r.answer;
    match answer {
        Ok(_) => {
            let c = r.client;
            let head = c.head;
            let row = c.row;
            put_client(state, head, &row);
            0
        }
        Err(e) => ids::code_of(e),
    }
}

// The record of server `id` of 1 to `n`, in the first words. Refused 7. This pair and the next are calls of the C interface: a helper for both
// would hold two tests of a line each, and is no plainer.
pub fn sigma_server_new(n: u32, id: u32, state: &mut [u32]) -> u32
    ensures { (result ≡ code_of (server_new n id (length state.old))) × (state.new ≡ record_into state.old (server_new n id (length state.old))) }
{
    if state.len() < words::SERVER_WORDS {
        return ids::code_of(Refusal::ParameterOutOfRange);
    }
    if !words::fits_head(n, id, 0) {
        return ids::code_of(Refusal::ParameterOutOfRange);
    }
    let j = ServerId(id as u16);
    let r = server::new(n as u16, j);
    server_made(r, state)
}

// The record of client `id` with `n` servers and threshold `m`, in the first words. Refused 7.
pub fn sigma_client_new(n: u32, m: u32, id: u32, state: &mut [u32]) -> u32
    ensures { (result ≡ code_of (client_new n m id (length state.old))) × (state.new ≡ record_into state.old (client_new n m id (length state.old))) }
{
    if state.len() < words::CLIENT_WORDS {
        return ids::code_of(Refusal::ParameterOutOfRange);
    }
    if !words::fits_head(n, m, id) {
        return ids::code_of(Refusal::ParameterOutOfRange);
    }
    let k = ClientId(id as u16);
    let r = client::new(n as u16, m as u16, k);
    client_made(r, state)
}

// A server's saved record, in any form that it has had, as a record of today in the first words. Refused 21, 6.
pub fn sigma_server_upgrade(old: &[u32], state: &mut [u32]) -> u32
    ensures { (result ≡ code_of (server_upgrade old.now (length state.old))) × (state.new ≡ record_into state.old (server_upgrade old.now (length state.old))) }
{
    if !saved::valid_server(old) {
        return ids::code_of(Refusal::InvalidRecord);
    }
    if state.len() < words::SERVER_WORDS {
        return ids::code_of(Refusal::RoomShort);
    }
    saved::take_server(old, state);
    0
}

// A client's. Refused 21, 6.
pub fn sigma_client_upgrade(old: &[u32], state: &mut [u32]) -> u32
    ensures { (result ≡ code_of (client_upgrade old.now (length state.old))) × (state.new ≡ record_into state.old (client_upgrade old.now (length state.old))) }
{
    if !saved::valid_client(old) {
        return ids::code_of(Refusal::InvalidRecord);
    }
    if state.len() < words::CLIENT_WORDS {
        return ids::code_of(Refusal::RoomShort);
    }
    saved::take_client(old, state);
    0
}
