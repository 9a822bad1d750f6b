// The words of a whole simulation: a head, client blocks, server blocks, and messages in transit. Document 01 says gallery for simulation.
// The functions are for callers whose words are valid: the simulation and what shows one; `valid` is for all.

#![tactic(auto)]

ghost use Rattle.std.specs.Prelude.{◌≡◌, true, ℕ, ◌≤◌, ◌<◌, ◌+◌, ◌*◌, ◌-◌, max, length, set, take, drop, map, if◌then◌else◌};
ghost use Rattle.std.proofs.lemmas.List.Edits.{sets};
ghost use Rattle.ids.specs.Limits.{within};
ghost use Rattle.client_responses.specs.Figure1.{count};
ghost use Rattle.client.specs.Record as client;
ghost use Rattle.server.specs.Record as server;
ghost use Rattle.system.specs.Places.{is_inside, holders as holders_of, in_epoch, worst};
ghost use Rattle.words.specs.Records.{server_head, client_head, max_word, client_head_from, server_head_from, client_from, client_words, server_from, server_words};
ghost use Rattle.sim_blocks.specs.Blocks.{client_place, server_place, client_record, server_record, cleared, emptied, valid_client_block, valid_server_block, client_block, server_block, holds_client_record, holds_server_record, client_record_size, response_words, queue_words};
ghost use Rattle.sim_blocks.specs.Regions.{blocks};
ghost use Rattle.sim_layout.specs.Layout.{client_words as clients_part, server_words as servers_part, transit_words, setting_of, length_of, sent_of, view, valid_from, itself, blank, valid as is_valid, servers_from, simulation_size};
ghost use Rattle.sim_transit.specs.Calls.{first_slot, is_pending, is_numbered};
ghost use Rattle.sim_index.specs.Index.{receivers};
ghost use Rattle.sim_indexed.specs.Indexed.{slot_in, valid_indexed, entries_at, listed_at};
ghost use Rattle.system.specs.Index.{index_of};
ghost use Rattle.sim_layout.specs.Parts.{client_block_of, server_block_of, with_client_block, with_server_block, ClientIn, ServerIn};
ghost use Rattle.sim_layout.specs.Inner.{blocks_valid, parts_valid};
ghost use Rattle.system.specs.Limits.{system_servers, system_clients};
ghost use Rattle.system.specs.Numbered.{client_no, server_no};

use ids::{ClientId, ServerId};
use sim_blocks::{CLIENT_BLOCK, SERVER_BLOCK};
use system::{MessageNumber, Receiver};
use wire::Message;

// The words of the head: the setting, the messages in transit, the messages sent, and the most servers down within an epoch. Only this
// crate and `sim_changes` know them, and where the parts begin.
pub const SERVERS: usize = 0;

pub const THRESHOLD: usize = 1;

pub const FAULTS: usize = 2;

pub const CLIENTS: usize = 3;

pub const LENGTH: usize = 4;

pub const SENT: usize = 5;

pub const MOST: usize = 6;

pub const CLIENTS_FROM: usize = 7;

const SERVERS_FROM: usize = CLIENTS_FROM + CLIENT_BLOCK * system::MAX_CLIENTS as usize;

pub const TRANSIT_FROM: usize = SERVERS_FROM + SERVER_BLOCK * system::MAX_SERVERS as usize;

const INDEX_FROM: usize = TRANSIT_FROM + sim_indexed::TABLE;

pub const SIMULATION_WORDS: usize = TRANSIT_FROM + sim_indexed::INDEXED_WORDS;

// The block of a client, and of a server.
fn block_of_client(w: &[u32], k: ClientId) -> &[u32]
    requires { ClientIn w.now k }
    ensures { result.now ≡ client_block_of w.now k }
{
    let start = CLIENTS_FROM + CLIENT_BLOCK * (k.0 as usize - 1);
    &w[start..start + CLIENT_BLOCK]
}

fn block_of_server(w: &[u32], j: ServerId) -> &[u32]
    requires { ServerIn w.now j }
    ensures { result.now ≡ server_block_of w.now j }
{
    let start = SERVERS_FROM + SERVER_BLOCK * (j.0 as usize - 1);
    &w[start..start + SERVER_BLOCK]
}

pub fn is_living(w: &[u32], k: ClientId) -> bool
    requires { ClientIn w.now k }
    ensures { result ≡ (client_place (client_block_of w.now k)).living }
{
    sim_blocks::is_living(block_of_client(w, k))
}

fn is_inside(w: &[u32], k: ClientId) -> bool
    requires { ClientIn w.now k }
    ensures { result ≡ is_inside (client_place (client_block_of w.now k)) }
{
    sim_blocks::is_inside(block_of_client(w, k))
}

// The head of the client's record, and the row of its responses, copied.
pub fn client_head(w: &[u32], k: ClientId) -> client::Head
    requires { ClientIn w.now k × (holds_client_record (client_record (client_block_of w.now k)) ≡ true) }
    ensures { result ≡ client_head_from (client_record (client_block_of w.now k)) }
{
    sim_blocks::client_head(block_of_client(w, k))
}

pub fn client_row(w: &[u32], k: ClientId, row: &mut [u32])
    requires { ClientIn w.now k × (length row.old ≡ response_words) }
    ensures { row.new ≡ drop client_head (client_record (client_block_of w.now k)) }
{
    sim_blocks::client_row(block_of_client(w, k), row);
}

// A block to be written is lent where it stands: a function that gives it out would have to say what the words become by what its caller writes.
pub fn put_client(w: &mut [u32], k: ClientId, h: client::Head, row: &[u32])
    requires { ClientIn w.old k × (length row.now ≡ response_words) }
    ensures { w.new ≡ with_client_block w.old k (sets (client_block_of w.old k) 1 (client_words (client.client_of h row.now))) }
{
    let a = CLIENTS_FROM + CLIENT_BLOCK * (k.0 as usize - 1);
    let e = a + CLIENT_BLOCK;
    sim_blocks::put_client(&mut w[a..e], h, row);
}

pub fn fall_client(w: &mut [u32], k: ClientId)
    requires { ClientIn w.old k }
    ensures { w.new ≡ with_client_block w.old k (cleared (set (client_block_of w.old k) 0 0)) }
{
    let a = CLIENTS_FROM + CLIENT_BLOCK * (k.0 as usize - 1);
    let e = a + CLIENT_BLOCK;
    sim_blocks::fall(&mut w[a..e]);
}

// No server counts in the client's epoch any more.
pub fn clear_client(w: &mut [u32], k: ClientId)
    requires { ClientIn w.old k }
    ensures { w.new ≡ with_client_block w.old k (cleared (client_block_of w.old k)) }
{
    let a = CLIENTS_FROM + CLIENT_BLOCK * (k.0 as usize - 1);
    let e = a + CLIENT_BLOCK;
    sim_blocks::clear_flags(&mut w[a..e]);
}

// Whether server j counts in the client's epoch.
pub fn put_flag(w: &mut [u32], k: ClientId, j: ServerId, x: u32)
    requires { ClientIn w.old k × (1 ≤ j.0) × (j.0 ≤ system_servers) }
    ensures { w.new ≡ with_client_block w.old k (set (client_block_of w.old k) (client_record_size + j.0) x) }
{
    let a = CLIENTS_FROM + CLIENT_BLOCK * (k.0 as usize - 1);
    let e = a + CLIENT_BLOCK;
    sim_blocks::put_flag(&mut w[a..e], j, x);
}

// Server j goes down: noted if the client's epoch runs.
pub fn mark_client(w: &mut [u32], k: ClientId, j: ServerId)
    requires { ClientIn w.old k × (1 ≤ j.0) × (j.0 ≤ system_servers) }
    ensures { w.new ≡ with_client_block w.old k (if in_epoch (client_place (client_block_of w.old k)) then set (client_block_of w.old k) (client_record_size + j.0) 1 else client_block_of w.old k) }
{
    let a = CLIENTS_FROM + CLIENT_BLOCK * (k.0 as usize - 1);
    let e = a + CLIENT_BLOCK;
    sim_blocks::mark_down(&mut w[a..e], j);
}

pub fn is_up(w: &[u32], j: ServerId) -> bool
    requires { ServerIn w.now j }
    ensures { result ≡ (server_place (server_block_of w.now j)).up }
{
    sim_blocks::is_up(block_of_server(w, j))
}

// The head of the server's record, and the row of its queue, copied.
pub fn server_head(w: &[u32], j: ServerId) -> server::Head
    requires { ServerIn w.now j × (holds_server_record (server_record (server_block_of w.now j)) ≡ true) }
    ensures { result ≡ server_head_from (server_record (server_block_of w.now j)) }
{
    sim_blocks::server_head(block_of_server(w, j))
}

pub fn server_row(w: &[u32], j: ServerId, row: &mut [u32])
    requires { ServerIn w.now j × (length row.old ≡ queue_words) }
    ensures { row.new ≡ drop server_head (server_record (server_block_of w.now j)) }
{
    sim_blocks::server_row(block_of_server(w, j), row);
}

pub fn put_server(w: &mut [u32], j: ServerId, h: server::Head, row: &[u32])
    requires { ServerIn w.old j × (length row.now ≡ queue_words) × (h.votes.len ≤ max_word) }
    ensures { w.new ≡ with_server_block w.old j (sets (server_block_of w.old j) 1 (server_words (server.server_of h row.now))) }
{
    let a = SERVERS_FROM + SERVER_BLOCK * (j.0 as usize - 1);
    let e = a + SERVER_BLOCK;
    sim_blocks::put_server(&mut w[a..e], h, row);
}

pub fn sink_server(w: &mut [u32], j: ServerId)
    requires { ServerIn w.old j × (holds_server_record (server_record (server_block_of w.old j)) ≡ true) }
    ensures { w.new ≡ with_server_block w.old j (set (sets (server_block_of w.old j) 1 (server_words (emptied (server_from (server_record (server_block_of w.old j)))))) 0 0) }
{
    let a = SERVERS_FROM + SERVER_BLOCK * (j.0 as usize - 1);
    let e = a + SERVER_BLOCK;
    sim_blocks::sink(&mut w[a..e]);
}

pub fn rise_server(w: &mut [u32], j: ServerId)
    requires { ServerIn w.old j }
    ensures { w.new ≡ with_server_block w.old j (set (server_block_of w.old j) 0 1) }
{
    let a = SERVERS_FROM + SERVER_BLOCK * (j.0 as usize - 1);
    let e = a + SERVER_BLOCK;
    sim_blocks::rise(&mut w[a..e]);
}

// Whether the words from `from` to `to` are all 0. For the tests of words here and in `script`, which know that they are there.
pub fn is_blank(w: &[u32], from: usize, to: usize) -> bool
    requires { (from ≤ to) × (to ≤ length w.now) }
    ensures { result ≡ blank (take (to - from) (drop from w.now)) }
{
    w[from..to].iter().all(|x| *x == 0)
}

fn client_valid(w: &[u32], n: u32, m: u32, clients: u32, k: ClientId) -> bool
    requires { ClientIn w.now k }
    ensures { result ≡ valid_client_block n m clients k (client_block_of w.now k) }
{
    sim_blocks::valid_client_block(block_of_client(w, k), n, m, clients, k)
}

// Whether the blocks of the first clients are valid, each as its number; below, the same of the servers: one function for both would take the test as a
// closure and be no shorter.
fn clients_valid(w: &[u32], n: u32, m: u32, clients: u16) -> bool
    requires { (length w.now ≡ simulation_size) × (clients ≤ system_clients) }
    ensures { result ≡ valid_from (λ (i : ℕ). valid_client_block n m clients (client_no i)) 1 (blocks client_block itself clients (clients_part w.now)) }
{
    (0..clients).all(|i| client_valid(w, n, m, clients as u32, ClientId(i + 1)))
}

fn server_valid(w: &[u32], n: u32, clients: u32, j: ServerId) -> bool
    requires { ServerIn w.now j }
    ensures { result ≡ valid_server_block n clients j (server_block_of w.now j) }
{
    sim_blocks::valid_server_block(block_of_server(w, j), n, clients, j)
}

// Whether the blocks of the servers are valid, each as its number.
fn servers_valid(w: &[u32], n: u16, clients: u32) -> bool
    requires { (length w.now ≡ simulation_size) × (n ≤ system_servers) }
    ensures { result ≡ valid_from (λ (i : ℕ). valid_server_block n clients (server_no i)) 1 (blocks server_block itself n (servers_part w.now)) }
{
    (0..n).all(|i| server_valid(w, n as u32, clients, ServerId(i + 1)))
}

// The servers ever down in the client's epoch.
fn downs_of(w: &[u32], k: ClientId) -> u32
    requires { ClientIn w.now k }
    ensures { result ≡ length (client_place (client_block_of w.now k)).downs }
{
    sim_blocks::count_flags(block_of_client(w, k))
}

// The most servers ever down within an epoch that runs.
pub fn worst_down(w: &[u32], clients: u16) -> u32
    requires { (length w.now ≡ simulation_size) × (clients ≤ system_clients) }
    ensures { result ≡ worst (blocks client_block client_place clients (clients_part w.now)) }
{
    let mut most: u32 = 0;
    for i in 0..clients {
        most = most.max(downs_of(w, ClientId(i + 1)));
    }
    most
}

// How many living clients are in the critical section.
fn count_inside(w: &[u32], clients: u16) -> u32
    requires { (length w.now ≡ simulation_size) × (clients ≤ system_clients) }
    ensures { result ≡ count (map is_inside (blocks client_block client_place clients (clients_part w.now))) }
{
    (0..clients)
        .filter(|i| is_inside(w, ClientId(*i + 1)))
        .count() as u32
}

// The tests of the blocks and of what stands behind them, in a setting in range.
fn blocks_valid(w: &[u32], n: u16, m: u32, clients: u16) -> bool
    requires { (length w.now ≡ simulation_size) × (n ≤ system_servers) × (clients ≤ system_clients) }
    ensures { result ≡ blocks_valid n m clients w.now }
{
    if !clients_valid(w, n as u32, m, clients) {
        return false;
    }
    if !is_blank(
        w,
        CLIENTS_FROM + CLIENT_BLOCK * (clients as usize),
        SERVERS_FROM,
    ) {
        return false;
    }
    if !servers_valid(w, n, clients as u32) {
        return false;
    }
    is_blank(w, SERVERS_FROM + SERVER_BLOCK * (n as usize), TRANSIT_FROM)
}

fn transit_valid(w: &[u32], n: u32, clients: u32) -> bool
    requires { (length w.now ≡ simulation_size) × (n ≤ system_servers) × (clients ≤ system_clients) }
    ensures { result ≡ valid_indexed n clients (sent_of w.now) (length_of w.now) (transit_words w.now) }
{
    let len = w[LENGTH];
    let sent = w[SENT];
    sim_indexed::valid(
        &w[TRANSIT_FROM..SIMULATION_WORDS],
        len as usize,
        sent,
        n,
        clients,
    )
}

// The tests of all that stands behind the setting, which is in range.
fn parts_valid(w: &[u32], n: u16, m: u32, clients: u16) -> bool
    requires { (length w.now ≡ simulation_size) × (n ≤ system_servers) × (clients ≤ system_clients) }
    ensures { result ≡ parts_valid n m clients w.now }
{
    if !blocks_valid(w, n, m, clients) {
        return false;
    }
    if !transit_valid(w, n as u32, clients as u32) {
        return false;
    }
    let most = w[MOST];
    if (n as u32) < most {
        return false;
    }
    worst_down(w, clients) <= most
}

// Whether the words are a simulation: the setting in range, every block and message as the setting says, the rest empty.
pub fn valid(w: &[u32]) -> bool
    ensures { result ≡ is_valid w.now }
{
    if w.len() != SIMULATION_WORDS {
        return false;
    }
    let n = w[SERVERS];
    let m = w[THRESHOLD];
    let f = w[FAULTS];
    if !quorum::in_range_up_to(system::MAX_SERVERS, n, m, f) {
        return false;
    }
    let clients = w[CLIENTS];
    if !ids::within_limit(clients, system::MAX_CLIENTS) {
        return false;
    }
    parts_valid(w, n as u16, m, clients as u16)
}

// What other crates ask of a simulation.

// The setting's servers and clients.
pub fn servers(w: &[u32]) -> u16
    requires { is_valid w.now ≡ true }
    ensures { result ≡ (setting_of w.now).n }
{
    w[SERVERS] as u16
}

pub fn clients(w: &[u32]) -> u16
    requires { is_valid w.now ≡ true }
    ensures { result ≡ (setting_of w.now).clients }
{
    w[CLIENTS] as u16
}

pub fn has_client(w: &[u32], k: ClientId) -> bool
    requires { is_valid w.now ≡ true }
    ensures { result ≡ within k.0 (setting_of w.now).clients }
{
    ids::within_limit(k.0 as u32, w[CLIENTS])
}

pub fn has_server(w: &[u32], j: ServerId) -> bool
    requires { is_valid w.now ≡ true }
    ensures { result ≡ within j.0 (setting_of w.now).n }
{
    ids::within_limit(j.0 as u32, w[SERVERS])
}

// How many living clients are in the critical section.
pub fn holders(w: &[u32]) -> u32
    requires { is_valid w.now ≡ true }
    ensures { result ≡ holders_of (view w.now) }
{
    let all = clients(w);
    count_inside(w, all)
}

// The most servers ever down within one epoch.
pub fn most_down(w: &[u32]) -> u32
    requires { is_valid w.now ≡ true }
    ensures { result ≡ (view w.now).most }
{
    w[MOST]
}

// How many messages were ever sent: the number of the last one.
pub fn sent(w: &[u32]) -> u32
    requires { is_valid w.now ≡ true }
    ensures { result ≡ (view w.now).sent }
{
    w[SENT]
}

// How many messages are in transit.
pub fn in_transit(w: &[u32]) -> usize
    requires { is_valid w.now ≡ true }
    ensures { result ≡ length_of w.now }
{
    w[LENGTH] as usize
}

// The slot of the pending message with this number, or of the message whether pending or delivered; where there is none, how many are in transit.
pub fn find_pending(w: &[u32], number: MessageNumber) -> usize
    requires { is_valid w.now ≡ true }
    ensures { result ≡ first_slot (is_pending number.0) (view w.now).transit }
{
    let len = w[LENGTH] as usize;
    sim_transit::find_pending(&w[TRANSIT_FROM..INDEX_FROM], len, number)
}

pub fn find_present(w: &[u32], number: MessageNumber) -> usize
    requires { is_valid w.now ≡ true }
    ensures { result ≡ first_slot (is_numbered number.0) (view w.now).transit }
{
    let len = w[LENGTH] as usize;
    sim_transit::find_present(&w[TRANSIT_FROM..INDEX_FROM], len, number)
}

// The message in slot `i`, its number, and whether it is delivered.
pub fn message_at(w: &[u32], i: usize) -> Message
    requires { (is_valid w.now ≡ true) × (i < length_of w.now) }
    ensures { result ≡ (slot_in (transit_words w.now) i).message }
{
    sim_transit::message_at(&w[TRANSIT_FROM..INDEX_FROM], i)
}

pub fn number_at(w: &[u32], i: usize) -> MessageNumber
    requires { (is_valid w.now ≡ true) × (i < length_of w.now) }
    ensures { result.0 ≡ (slot_in (transit_words w.now) i).number }
{
    sim_transit::number_at(&w[TRANSIT_FROM..INDEX_FROM], i)
}

pub fn is_delivered(w: &[u32], i: usize) -> bool
    requires { (is_valid w.now ≡ true) × (i < length_of w.now) }
    ensures { result ≡ (slot_in (transit_words w.now) i).delivered }
{
    sim_transit::is_delivered(&w[TRANSIT_FROM..INDEX_FROM], i)
}

// The i-th entry of the receiver at a place in the index.
fn entry_at(w: &[u32], p: usize, i: usize) -> Option<(MessageNumber, bool)>
    requires { (is_valid w.now ≡ true) × (p < receivers) }
    ensures { result ≡ listed_at (entries_at p (view w.now).transit) i }
{
    let len = w[LENGTH] as usize;
    sim_indexed::read_entry(&w[TRANSIT_FROM..SIMULATION_WORDS], len, p, i)
}

// The i-th of the messages in transit to a receiver, counted from 0, pending or delivered. Nothing past the last of them, and of a receiver that the
// setting lacks. Only the receiver's own entries are looked at.
pub fn entry_of(w: &[u32], r: Receiver, i: usize) -> Option<(MessageNumber, bool)>
    requires { is_valid w.now ≡ true }
    ensures { result ≡ listed_at (index_of r (view w.now).transit) i }
{
    match r {
        Receiver::Client(k) => {
            if !has_client(w, k) {
                return None;
            }
            entry_at(w, system::MAX_SERVERS as usize + (k.0 as usize - 1), i)
        }
        Receiver::Server(j) => {
            if !has_server(w, j) {
                return None;
            }
            entry_at(w, j.0 as usize - 1, i)
        }
    }
}
