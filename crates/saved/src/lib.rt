// Records that a host has saved, in each form that a record has had, taken over as records of today (document 02, L3 and L4): for the C interface.
// The number of words tells the form (specs/Forms). What is known of earlier players has no code (specs/Players).

#![tactic(auto)]

ghost use Rattle.std.specs.Prelude.{◌≡◌, true, ◌++◌, ◌-◌, ◌≤◌, ◌<◌, length, replicate};
ghost use Rattle.std.proofs.lemmas.List.Edits.{sets};
ghost use Rattle.words.specs.Records.{server_size, client_size};
ghost use Rattle.saved.specs.Forms.{earlier_head, sound_server, sound_client, saved_server, ordered_client, saved_client, server_now, unseen, client_now};

use words::{CLIENT_HEAD, CLIENT_WORDS, SERVER_HEAD, SERVER_WORDS};

// The rows of form 1: document 01's places of a waiting line, and a place for each of its servers.
const EARLIER_PLACES: usize = 16;

const EARLIER_QUEUE: usize = 2 * EARLIER_PLACES;

const EARLIER_RESPONSES: usize = 2 * ids::EARLIER_SERVERS as usize;

// The numbers before a client's places in forms 1 and 2, which had none for what it has seen.
const EARLIER_HEAD: usize = 5;

// Whether the words are a server's record with a row of `row` words, valid where `limit` servers are the most.
fn sound_server(words: &[u32], row: usize, limit: u32) -> bool
    ensures { result ≡ sound_server row limit words.now }
{
    if !words::holds_server_of(words, row) {
        return false;
    }
    let h = words::server_head(words);
    server::valid_row_up_to(limit, h, &words[SERVER_HEAD..])
}

fn sound_client(words: &[u32], row: usize, limit: u32) -> bool
    ensures { result ≡ sound_client row limit words.now }
{
    if !words::holds_client_of(words, row) {
        return false;
    }
    let h = words::client_head(words);
    client::valid_row_up_to(limit, h, &words[CLIENT_HEAD..])
}

// Whether the words are a server's saved record, in one form or the other.
pub fn valid_server(words: &[u32]) -> bool
    ensures { result ≡ saved_server words.now }
{
    if sound_server(words, EARLIER_QUEUE, ids::EARLIER_SERVERS) {
        return true;
    }
    sound_server(words, server::ROW_WORDS, ids::MAX_SERVERS)
}

// The same of a client whose words stand in today's order.
fn ordered_client(words: &[u32]) -> bool
    ensures { result ≡ ordered_client words.now }
{
    if sound_client(words, EARLIER_RESPONSES, ids::EARLIER_SERVERS) {
        return true;
    }
    sound_client(words, client::ROW_WORDS, ids::MAX_SERVERS)
}

// Writes the words at the start of `order`, with nothing seen behind the timestamp.
fn put_unseen(words: &[u32], order: &mut [u32])
    requires { (earlier_head ≤ length words.now) × (length words.now < length order.old) }
    ensures { order.new ≡ sets order.old 0 (unseen words.now) }
{
    let n = words.len();
    rows::copy(&words[0..EARLIER_HEAD], &mut order[0..EARLIER_HEAD]);
    order[EARLIER_HEAD] = 0;
    rows::copy(&words[EARLIER_HEAD..n], &mut order[CLIENT_HEAD..n + 1]);
}

// Whether the words are a client's saved record, in one of its three forms.
pub fn valid_client(words: &[u32]) -> bool
    ensures { result ≡ saved_client words.now }
{
    let n = words.len();
    if n == CLIENT_WORDS {
        return ordered_client(words);
    }
    if n < EARLIER_HEAD {
        return false;
    }
    if CLIENT_WORDS < n {
        return false;
    }
    let mut order = [0u32; CLIENT_WORDS];
    put_unseen(words, &mut order);
    ordered_client(&order[0..n + 1])
}

// The words, and 0 to the record's end.
fn widen(words: &[u32], state: &mut [u32])
    requires { length words.now ≤ length state.old }
    ensures { state.new ≡ words.now ++ replicate (length state.old - length words.now) 0 }
{
    let n = words.len();
    let end = state.len();
    rows::copy(words, &mut state[0..n]);
    rows::zero(&mut state[n..end]);
}

// A valid saved record, taken over in the first words.
pub fn take_server(words: &[u32], state: &mut [u32])
    requires { (saved_server words.now ≡ true) × (server_size ≤ length state.old) }
    ensures { state.new ≡ sets state.old 0 (server_now words.now) }
{
    widen(words, &mut state[0..SERVER_WORDS]);
}

pub fn take_client(words: &[u32], state: &mut [u32])
    requires { (saved_client words.now ≡ true) × (client_size ≤ length state.old) }
    ensures { state.new ≡ sets state.old 0 (client_now words.now) }
{
    if words.len() == CLIENT_WORDS {
        rows::copy(words, &mut state[0..CLIENT_WORDS]);
        return;
    }
    let mut order = [0u32; CLIENT_WORDS];
    put_unseen(words, &mut order);
    rows::copy(&order, &mut state[0..CLIENT_WORDS]);
}
