// One part of a simulation changed or tested, a party's step with all that it changes, and the parts of a new simulation put. What an event answers.
// These functions are for the events (`sim_acts`, `sim_takes`) and for a new simulation, whose words are valid.

#![tactic(auto)]

ghost use Rattle.std.specs.Prelude.{◌≡◌, true, [], ◌∷◌, map, ◌≤◌, ◌+◌, max, length, set, if◌then◌else◌};
ghost use Rattle.ids.specs.Limits.{within};
ghost use Rattle.quorum.specs.Check.{in_range_up_to};
ghost use Rattle.system.specs.Numbered.{put, client_no, server_no};
ghost use Rattle.system.specs.Transit.{replaced, keeping, gone, again};
ghost use Rattle.system.specs.Places.{client_at, server_at, in_epoch, down_from, downed, worst};
ghost use Rattle.server_votes.specs.Places.{mails};
ghost use Rattle.server.specs.Parts.{three_mails};
ghost use Rattle.sim_transit.specs.Slots.{messages_in};
ghost use Rattle.sim_indexed.specs.Indexed.{slot_in};
ghost use Rattle.sim_blocks.specs.Blocks.{server_place, response_words, queue_words};
ghost use Rattle.sim_layout.specs.Layout.{setting_of, length_of, most_of, transit_words, view, valid, simulation_size};
ghost use Rattle.sim_layout.specs.Parts.{server_block_of, ClientIn, ServerIn};
ghost use Rattle.rows.specs.Rows.{Padded};
ghost use Rattle.client.specs.Record as client;
ghost use Rattle.client.specs.Steps.{Answers};
ghost use Rattle.server.specs.Record as server;
ghost use Rattle.server.specs.Rows.{Turns};
ghost use Rattle.sim_changes.specs.Happens.{happens, Leaves, moved_of};
ghost use Rattle.sim_changes.specs.Acts.{ClientMay, client_event, ServerMay, server_event};
ghost use Rattle.sim_changes.specs.Inner.{ClientAsks, client_outcome, client_gone, ClientStores, client_stored, server_outcome, ServerStores, server_stored, with_client, sending, has_room, Sendable, CanSend, Cleared, new_client, new_server, in_turn};
ghost use Rattle.sim_changes.specs.Opening.{Starts};
ghost use Rattle.sim_changes.specs.Changes.{Becomes, HasClient, HasServer, HasSlot, with_transit, with_clients};
ghost use Rattle.system.specs.Limits.{system_messages, system_clients, system_servers};

use ids::{ClientId, Refusal, Request, ServerId, Timestamp};
use server_votes::Tag;
use sim_blocks::CLIENT_BLOCK;
use sim_layout::{
    CLIENTS, CLIENTS_FROM, FAULTS, LENGTH, MOST, SENT, SERVERS, SIMULATION_WORDS, THRESHOLD,
    TRANSIT_FROM,
};
use system::Setting;
use wire::Message;

// What an accepted event did: the messages it sent, and the living holders afterwards.
#[derive(Clone, Copy)]
pub struct Effect {
    pub sent: u32,
    pub holders: u32,
}

// The bytes into which an event's step writes what it sends.
const OUT_BYTES: usize = 512;

// What a client does in an event: it begins its step (document 01's try), leaves the critical section, or takes the RESPONSE or the CHECK in a slot. An
// enum and no closure, as the next one: `client_event` and `server_event` name the event by its cases.
#[derive(Clone, Copy)]
pub enum ClientAct {
    Try,
    Exit,
    Response(usize, ServerId, Option<Request>),
    Check(usize, ServerId, Timestamp),
}

// What a server does in an event: it asks its owner, suspects it, or takes the client's message in a slot.
#[derive(Clone, Copy)]
pub enum ServerAct {
    Check,
    Suspect,
    Take(usize, Tag, ClientId, Timestamp),
}

// The message in slot `i` is gone.
pub fn remove_message(w: &mut [u32], i: usize)
    requires { HasSlot w.old i }
    ensures { Becomes w.old w.new (with_transit (view w.old) (replaced (slot_in (transit_words w.old) i).number gone (view w.old).transit)) }
{
    let len = w[LENGTH] as usize;
    sim_indexed::remove(&mut w[TRANSIT_FROM..SIMULATION_WORDS], len, i);
    w[LENGTH] = (len - 1) as u32;
}

// The message in slot `i` is delivered, and stays.
fn mark_message(w: &mut [u32], i: usize)
    requires { HasSlot w.old i }
    ensures { Becomes w.old w.new (with_transit (view w.old) (replaced (slot_in (transit_words w.old) i).number keeping (view w.old).transit)) }
{
    let len = w[LENGTH] as usize;
    sim_indexed::mark(&mut w[TRANSIT_FROM..SIMULATION_WORDS], len, i);
}

// What was delivered to server `j` is pending again.
pub fn restart_messages(w: &mut [u32], j: ServerId)
    requires { HasServer w.old j }
    ensures { Becomes w.old w.new (with_transit (view w.old) (map (again j) (view w.old).transit)) }
{
    let len = w[LENGTH] as usize;
    sim_indexed::restart(&mut w[TRANSIT_FROM..SIMULATION_WORDS], len, j);
}

// Whether so many messages may be sent once `gone` messages are gone.
fn has_room(w: &[u32], gone: u32, count: usize) -> bool
    requires { (valid w.now ≡ true) × (gone ≤ length_of w.now) × (count ≤ system_messages) }
    ensures { result ≡ has_room w.now gone count }
{
    if count == 0 {
        return true;
    }
    let more = count as u32;
    if system::MAX_MESSAGES < w[LENGTH] - gone + more {
        return false;
    }
    w[SENT] <= system::LAST_NUMBER - more
}

// The first `count` messages of the bytes are sent.
fn send(w: &mut [u32], bytes: &[u8], count: usize)
    requires { Sendable w.old count bytes.now }
    ensures { Becomes w.old w.new (sending (view w.old) (messages_in count bytes.now)) }
{
    let len = w[LENGTH] as usize;
    let sent = w[SENT];
    sim_indexed::post(
        &mut w[TRANSIT_FROM..SIMULATION_WORDS],
        len,
        sent,
        bytes,
        count,
    );
    w[LENGTH] = (len + count) as u32;
    w[SENT] = sent + count as u32;
}

// The message is sent, if there is one.
fn send_mail(w: &mut [u32], m: Option<Message>)
    requires { CanSend w.old (mails m) }
    ensures { Becomes w.old w.new (sending (view w.old) (mails m)) }
{
    match m {
        None => {}
        Some(x) => send_message(w, x),
    }
}

fn send_message(w: &mut [u32], m: Message)
    requires { CanSend w.old (m ∷ []) }
    ensures { Becomes w.old w.new (sending (view w.old) (m ∷ [])) }
{
    let len = w[LENGTH] as usize;
    let sent = w[SENT];
    sim_indexed::post_message(&mut w[TRANSIT_FROM..SIMULATION_WORDS], len, sent, m);
    w[LENGTH] = (len + 1) as u32;
    w[SENT] = sent + 1;
}

// The messages of a server's step are sent, in order: each goes to its slot as it is.
fn send_mails(
    w: &mut [u32],
    first: Option<Message>,
    second: Option<Message>,
    third: Option<Message>,
)
    requires { CanSend w.old (three_mails first second third) }
    ensures { Becomes w.old w.new (sending (view w.old) (three_mails first second third)) }
{
    send_mail(w, first);
    send_mail(w, second);
    send_mail(w, third);
}

// The most servers down within an epoch are noted.
fn note_most(w: &mut [u32])
    requires { (length w.old ≡ simulation_size) × ((setting_of w.old).clients ≤ system_clients) }
    ensures { w.new ≡ set w.old 6 (max (most_of w.old) (worst (view w.old).clients)) }
{
    let worst = sim_layout::worst_down(w, w[CLIENTS] as u16);
    w[MOST] = w[MOST].max(worst);
}

// Server `j` goes down: the epochs of all clients note it.
pub fn note_down(w: &mut [u32], j: ServerId)
    requires { HasServer w.old j }
    ensures { Becomes w.old w.new (with_clients (view w.old) (map (downed j) (view w.old).clients)) }
{
    let clients = w[CLIENTS] as u16;
    for i in 0..clients {
        sim_layout::mark_client(w, ClientId(i + 1), j);
    }
    note_most(w);
}

// 1 if the server is down.
fn down_flag(w: &[u32], j: ServerId) -> u32
    requires { ServerIn w.now j }
    ensures { result ≡ (if (server_place (server_block_of w.now j)).up then 0 else 1) }
{
    if sim_layout::is_up(w, j) {
        return 0;
    }
    1
}

// An epoch of client `k` begins: the servers that are down count.
fn begin_epoch(w: &mut [u32], k: ClientId)
    requires { HasClient w.old k × (in_epoch (client_at (view w.old) k) ≡ true) }
    ensures { Becomes w.old w.new (with_clients (view w.old) (put (view w.old).clients k.0 (record { living = (client_at (view w.old) k).living; state = (client_at (view w.old) k).state; downs = down_from 1 (view w.old).servers }))) }
{
    let n = w[SERVERS] as u16;
    for i in 0..n {
        let x = down_flag(w, ServerId(i + 1));
        sim_layout::put_flag(w, k, ServerId(i + 1), x);
    }
    note_most(w);
}

// The epoch of client `k` ends: no server counts any more.
fn end_epoch(w: &mut [u32], k: ClientId)
    requires { HasClient w.old k }
    ensures { Becomes w.old w.new (with_client (view w.old) k (record { living = (client_at (view w.old) k).living; state = (client_at (view w.old) k).state; downs = [] })) }
{
    sim_layout::clear_client(w, k);
}

// The owner in server `j`'s record.
pub fn owner_of(w: &[u32], j: ServerId) -> Option<Request>
    requires { HasServer w.now j }
    ensures { result ≡ (server_at (view w.now) j).state.owner }
{
    let h = sim_layout::server_head(w, j);
    let v = h.votes;
    v.owner
}

// A party's step.

// The call of the act on the client's record.
fn call_client(h: client::Head, row: &mut [u32], act: ClientAct, out: &mut [u8]) -> client::Turned
    requires { ClientAsks act (client.client_of h row.old) }
    ensures { Answers h row.old (client_outcome act (client.client_of h row.old)) out.old result row.new out.new }
{
    match act {
        ClientAct::Try => client::begin_row(h, row, out),
        ClientAct::Exit => client::exit_row(h, row, out),
        ClientAct::Response(_, j, o) => client::respond_row(h, row, j, o, out),
        ClientAct::Check(_, j, t) => client::check_row(h, row, j, t, out),
    }
}

// How many messages the act takes away.
fn messages_gone(act: ClientAct) -> u32
    ensures { result ≡ client_gone act }
{
    match act {
        ClientAct::Try | ClientAct::Exit => 0,
        ClientAct::Response(_, _, _) | ClientAct::Check(_, _, _) => 1,
    }
}

// The client's record after its step is stored, with what the act changes beside it. Its epoch runs only outside the remainder section: it begins
// after the record of the try is stored, and ends before that of the exit is.
fn store_client(w: &mut [u32], k: ClientId, act: ClientAct, h: client::Head, row: &[u32])
    requires { ClientStores w.old k act (client.client_of h row.now) × (length row.now ≡ response_words) }
    ensures { Becomes w.old w.new (client_stored w.old k act) }
{
    match act {
        ClientAct::Try => {
            sim_layout::put_client(w, k, h, row);
            begin_epoch(w, k);
        }
        ClientAct::Exit => {
            end_epoch(w, k);
            sim_layout::put_client(w, k, h, row);
        }
        ClientAct::Response(i, _, _) | ClientAct::Check(i, _, _) => {
            remove_message(w, i);
            sim_layout::put_client(w, k, h, row);
        }
    }
}

// Client `k` does what an event says: its record is loaded, stepped and stored, and what it sends is sent.
pub fn client_acts(w: &mut [u32], k: ClientId, act: ClientAct) -> Result<u32, Refusal>
    requires { ClientMay w.old k act }
    ensures { Leaves w.old (client_event w.old k act) w.new × (result ≡ moved_of (happens w.old (client_event w.old k act))) }
{
    if !sim_layout::is_living(w, k) {
        return Err(Refusal::PartyDown);
    }
    let mut bytes = [0u8; OUT_BYTES];
    let mut row = [0u32; sim_blocks::RESPONSE_WORDS];
    sim_layout::client_row(w, k, &mut row);
    let s = call_client(sim_layout::client_head(w, k), &mut row, act, &mut bytes);
    let count = s.answer?.messages;
    if !has_room(w, messages_gone(act), count) {
        return Err(Refusal::SystemFull);
    }
    store_client(w, k, act, s.head, &row);
    send(w, &bytes, count);
    Ok(count as u32)
}

// The call of the act on the record of server `j`.
fn call_server(h: server::Head, row: &mut [u32], j: ServerId, act: ServerAct) -> server::Turned
    requires { Padded row.old h.votes.len }
    ensures { Turns h row.old (server_outcome act j (server.server_of h row.old)) result row.new }
{
    match act {
        ServerAct::Check => server::check_row(h, row),
        ServerAct::Suspect => server::suspect_row(h, row),
        ServerAct::Take(_, tag, k, t) => server::take_row(h, row, tag, k, j, t),
    }
}

// The server's record after its step is stored; the message that it took is delivered, and stays.
fn store_server(w: &mut [u32], j: ServerId, act: ServerAct, h: server::Head, row: &[u32])
    requires { ServerStores w.old j act h row.now × (length row.now ≡ queue_words) }
    ensures { Becomes w.old w.new (server_stored w.old j act) }
{
    match act {
        ServerAct::Check | ServerAct::Suspect => sim_layout::put_server(w, j, h, row),
        ServerAct::Take(i, _, _, _) => {
            mark_message(w, i);
            sim_layout::put_server(w, j, h, row);
        }
    }
}

// Server `j`, which is up, does what an event says.
pub fn server_steps(w: &mut [u32], j: ServerId, act: ServerAct) -> Result<u32, Refusal>
    requires { ServerMay w.old j act × ((server_at (view w.old) j).up ≡ true) }
    ensures { Leaves w.old (server_event w.old j act) w.new × (result ≡ moved_of (happens w.old (server_event w.old j act))) }
{
    let mut row = [0u32; sim_blocks::QUEUE_WORDS];
    sim_layout::server_row(w, j, &mut row);
    let t = call_server(sim_layout::server_head(w, j), &mut row, j, act);
    t.ruling?;
    let count = server::counts(t.first, t.second, t.third);
    if !has_room(w, 0, count) {
        return Err(Refusal::SystemFull);
    }
    store_server(w, j, act, t.head, &row);
    send_mails(w, t.first, t.second, t.third);
    Ok(count as u32)
}

// The same of a server that may be down.
pub fn server_acts(w: &mut [u32], j: ServerId, act: ServerAct) -> Result<u32, Refusal>
    requires { ServerMay w.old j act }
    ensures { Leaves w.old (server_event w.old j act) w.new × (result ≡ moved_of (happens w.old (server_event w.old j act))) }
{
    if !sim_layout::is_up(w, j) {
        return Err(Refusal::PartyDown);
    }
    server_steps(w, j, act)
}

// A new simulation.

fn clear_all(w: &mut [u32])
    ensures { Cleared w.old w.new }
{
    w.fill(0);
}

fn new_client(w: &mut [u32], n: u16, m: u16, k: ClientId)
    requires { ClientIn w.old k }
    ensures { w.new ≡ new_client n m k w.old }
{
    w[CLIENTS_FROM + CLIENT_BLOCK * (k.0 as usize - 1)] = 1;
    let head = client::fresh_head(n, m, k);
    let row = [0u32; sim_blocks::RESPONSE_WORDS];
    sim_layout::put_client(w, k, head, &row);
}

// One function for clients and servers would take what puts one as a closure over the words: no plainer than a loop of one line in each.
fn new_clients(w: &mut [u32], n: u16, m: u16, clients: u16)
    requires { (length w.old ≡ simulation_size) × (clients ≤ system_clients) }
    ensures { w.new ≡ in_turn (λ i. new_client n m (client_no i)) clients w.old }
{
    for i in 0..clients {
        new_client(w, n, m, ClientId(i + 1));
    }
}

fn new_server(w: &mut [u32], n: u16, j: ServerId)
    requires { ServerIn w.old j }
    ensures { w.new ≡ new_server n j w.old }
{
    sim_layout::rise_server(w, j);
    let head = server::empty_head(n, j);
    let row = [0u32; sim_blocks::QUEUE_WORDS];
    sim_layout::put_server(w, j, head, &row);
}

fn new_servers(w: &mut [u32], n: u16)
    requires { (length w.old ≡ simulation_size) × (n ≤ system_servers) }
    ensures { w.new ≡ in_turn (λ i. new_server n (server_no i)) n w.old }
{
    for i in 0..n {
        new_server(w, n, ServerId(i + 1));
    }
}

// The words are a fresh start of this setting, which is in range.
pub fn start(w: &mut [u32], s: Setting)
    requires { (length w.old ≡ simulation_size) × (in_range_up_to system_servers s.n s.m s.f ≡ true) × (within s.clients system_clients ≡ true) }
    ensures { Starts s w.new }
{
    clear_all(w);
    w[SERVERS] = s.n;
    w[THRESHOLD] = s.m;
    w[FAULTS] = s.f;
    w[CLIENTS] = s.clients;
    new_clients(w, s.n as u16, s.m as u16, s.clients as u16);
    new_servers(w, s.n as u16);
}
