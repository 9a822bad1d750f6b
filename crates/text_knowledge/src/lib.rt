// What each server and each client of a simulation knows, and its messages in transit, as text on a sheet: the teacher's slips
// (specs/Knowledge), and the mail in the order of its numbers (specs/Mail) or by receiver (specs/Boxes). The public functions are for `slips`,
// whose script has a valid simulation.

#![tactic(auto)]

ghost use Rattle.std.specs.Prelude.{ℕ, ◌≡◌, true, [], ◌∷◌, ◌++◌, ◌≤◌, ◌<◌, if◌then◌else◌};
ghost use Rattle.sim_changes.specs.Changes.{HasClient, HasServer};
ghost use Rattle.client_responses.specs.Row.{shown, responses_in};
ghost use Rattle.client.specs.Record.{client_of, view as client_view};
ghost use Rattle.script_numbers.specs.Decimals.{decimal};
ghost use Rattle.script_lines.specs.Words.{text};
ghost use Rattle.sim_layout.specs.Layout.{valid, view as system_of, setting_of, length_of, transit_words};
ghost use Rattle.text_sheet.specs.Sheet.{sheet as sheet_of, puts};
ghost use Rattle.rows.specs.Rows.{queue_of, Padded};
ghost use Rattle.server_votes.specs.Queues.{view as votes_view};
ghost use Rattle.system.specs.Index.{index_of};
ghost use Rattle.system.specs.Places.{client_at, server_at};
ghost use Rattle.sim_indexed.specs.Indexed.{slot_in};
ghost use Rattle.wire.specs.declared.Message.TheVariants.{Response, Check};
ghost use Rattle.text_knowledge.specs.Knowledge.{request_text, requests_text, queue_text, votes_text, server_text, support_text, section_text, supporters_text, state_text, client_text, servers_text, clients_text, slips_text};
ghost use Rattle.text_knowledge.specs.Mail.{timestamp_text, to_server_text, to_client_text, owner_text, message_text, standing_text, in_transit_text, mail_text, slips_mail_text};
ghost use Rattle.text_knowledge.specs.Boxes.{entry_text, entries_text, receiver_text, box_text, boxes_of, boxes_text, slips_boxes_text};
ghost use Rattle.system.specs.Numbered.{server_no};

use client::Head;
use client_responses::Section;
use ids::{ClientId, Request, ServerId, Timestamp};
use server_votes::Votes;
use system::{MessageNumber, Receiver};
use wire::Message;

fn put_request(out: &mut [u8], at: usize, r: Request) -> usize
    ensures { sheet_of out.new result ≡ puts (request_text r) (sheet_of out.old at) }
{
    let client = r.client;
    let timestamp = r.timestamp;
    let p = text_sheet::put_number(out, at, client.0 as u32);
    text_sheet::put_with(out, p, b",", timestamp.0)
}

fn put_next(out: &mut [u8], at: usize, r: Request) -> usize
    ensures { sheet_of out.new result ≡ puts (requests_text (r ∷ [])) (sheet_of out.old at) }
{
    let p = text_sheet::put(out, at, b" ");
    put_request(out, p, r)
}

// Those who wait, in the first `len` places of a row.
fn put_requests(out: &mut [u8], at: usize, row: &[u32], len: usize) -> usize
    requires { Padded row.now len }
    ensures { sheet_of out.new result ≡ puts (requests_text (queue_of row.now len)) (sheet_of out.old at) }
{
    let mut end = at;
    for i in 0..len {
        end = put_next(out, end, rows::request_at(row, i));
    }
    end
}

fn put_queue(out: &mut [u8], at: usize, row: &[u32], len: usize) -> usize
    requires { Padded row.now len }
    ensures { sheet_of out.new result ≡ puts (queue_text (queue_of row.now len)) (sheet_of out.old at) }
{
    if len == 0 {
        return at;
    }
    let p = text_sheet::put(out, at, b" line");
    put_requests(out, p, row, len)
}

fn put_votes(out: &mut [u8], at: usize, v: Votes, row: &[u32]) -> usize
    requires { Padded row.now v.len }
    ensures { sheet_of out.new result ≡ puts (votes_text (votes_view v row.now)) (sheet_of out.old at) }
{
    match v.owner {
        None => text_sheet::put(out, at, b" free"),
        Some(o) => {
            let p = text_sheet::put(out, at, b" owner ");
            let e = put_request(out, p, o);
            put_queue(out, e, row, v.len)
        }
    }
}

// What a server that is up, or down, knows.
fn put_knowledge(out: &mut [u8], at: usize, up: bool, v: Votes, row: &[u32]) -> usize
    requires { Padded row.now v.len }
    ensures { sheet_of out.new result ≡ puts (if up then votes_text (votes_view v row.now) else text " down" ∷ []) (sheet_of out.old at) }
{
    if up {
        return put_votes(out, at, v, row);
    }
    text_sheet::put(out, at, b" down")
}

fn put_server(out: &mut [u8], at: usize, w: &[u32], j: ServerId) -> usize
    requires { HasServer w.now j }
    ensures { sheet_of out.new result ≡ puts (server_text j (server_at (system_of w.now) j)) (sheet_of out.old at) }
{
    let up = sim_layout::is_up(w, j);
    let mut row = [0u32; sim_blocks::QUEUE_WORDS];
    sim_layout::server_row(w, j, &mut row);
    let h = sim_layout::server_head(w, j);
    let p = text_sheet::put_with(out, at, b"keeper ", j.0 as u32);
    let e = put_knowledge(out, p, up, h.votes, &row);
    text_sheet::put(out, e, b"\n")
}

fn put_servers(out: &mut [u8], at: usize, w: &[u32], n: u16) -> usize
    requires { (valid w.now ≡ true) × (n ≤ (setting_of w.now).n) }
    ensures { sheet_of out.new result ≡ puts (servers_text (system_of w.now) n) (sheet_of out.old at) }
{
    let mut end = at;
    for i in 0..n {
        end = put_server(out, end, w, ServerId(i + 1));
    }
    end
}

// Server `j`'s number, if its response is `r`.
fn put_support(out: &mut [u8], at: usize, r: Request, j: ServerId, q: Request) -> usize
    ensures { sheet_of out.new result ≡ puts (support_text r j (shown q ∷ [])) (sheet_of out.old at) }
{
    if client_responses::is_own(r, q) {
        return text_sheet::put_with(out, at, b" ", j.0 as u32);
    }
    at
}

// The servers whose response is `r`, of the `n` whose responses stand in a row.
fn put_supports(out: &mut [u8], at: usize, r: Request, row: &[u32], n: u16) -> usize
    requires { Padded row.now n }
    ensures { sheet_of out.new result ≡ puts (support_text r (server_no 1) (responses_in row.now n)) (sheet_of out.old at) }
{
    let mut end = at;
    for i in 0..n {
        let q = rows::request_at(row, i as usize);
        end = put_support(out, end, r, ServerId(i + 1), q);
    }
    end
}

// The section and the timestamp.
fn put_section(out: &mut [u8], at: usize, s: Section, t: Timestamp) -> usize
    ensures { sheet_of out.new result ≡ puts (section_text s ∷ decimal t.0 ∷ []) (sheet_of out.old at) }
{
    match s {
        Section::Remainder => text_sheet::put_with(out, at, b" remainder ticket ", t.0),
        Section::Trying => text_sheet::put_with(out, at, b" trying ticket ", t.0),
        Section::Critical => text_sheet::put_with(out, at, b" holding ticket ", t.0),
    }
}

fn put_supporters(out: &mut [u8], at: usize, r: Request, row: &[u32], n: u16) -> usize
    requires { Padded row.now n }
    ensures { sheet_of out.new result ≡ puts (text " keepers" ∷ support_text r (server_no 1) (responses_in row.now n)) (sheet_of out.old at) }
{
    let p = text_sheet::put(out, at, b" keepers");
    put_supports(out, p, r, row, n)
}

fn put_supporters_of(
    out: &mut [u8],
    at: usize,
    s: Section,
    r: Request,
    row: &[u32],
    n: u16,
) -> usize
    requires { Padded row.now n }
    ensures { sheet_of out.new result ≡ puts (supporters_text s (support_text r (server_no 1) (responses_in row.now n))) (sheet_of out.old at) }
{
    match s {
        Section::Remainder => at,
        Section::Trying | Section::Critical => put_supporters(out, at, r, row, n),
    }
}

fn put_state(out: &mut [u8], at: usize, k: ClientId, h: Head, row: &[u32]) -> usize
    requires { Padded row.now h.n }
    ensures { sheet_of out.new result ≡ puts (state_text k (client_view (client_of h row.now))) (sheet_of out.old at) }
{
    let client = k;
    let timestamp = h.timestamp;
    let r = Request { client, timestamp };
    let section = h.section;
    let seen = h.seen;
    let p = put_section(out, at, section, timestamp);
    let q = text_sheet::put_with(out, p, b" seen ", seen.0);
    put_supporters_of(out, q, section, r, row, h.n)
}

// What a client that lives, or has fallen, knows.
fn put_life(out: &mut [u8], at: usize, k: ClientId, living: bool, h: Head, row: &[u32]) -> usize
    requires { Padded row.now h.n }
    ensures { sheet_of out.new result ≡ puts (if living then state_text k (client_view (client_of h row.now)) else text " fallen" ∷ []) (sheet_of out.old at) }
{
    if living {
        return put_state(out, at, k, h, row);
    }
    text_sheet::put(out, at, b" fallen")
}

fn put_client(out: &mut [u8], at: usize, w: &[u32], k: ClientId) -> usize
    requires { HasClient w.now k }
    ensures { sheet_of out.new result ≡ puts (client_text k (client_at (system_of w.now) k)) (sheet_of out.old at) }
{
    let living = sim_layout::is_living(w, k);
    let mut row = [0u32; sim_blocks::RESPONSE_WORDS];
    sim_layout::client_row(w, k, &mut row);
    let h = sim_layout::client_head(w, k);
    let p = text_sheet::put_with(out, at, b"kiosk ", k.0 as u32);
    let e = put_life(out, p, k, living, h, &row);
    text_sheet::put(out, e, b"\n")
}

fn put_clients(out: &mut [u8], at: usize, w: &[u32], clients: u16) -> usize
    requires { (valid w.now ≡ true) × (clients ≤ (setting_of w.now).clients) }
    ensures { sheet_of out.new result ≡ puts (clients_text (system_of w.now) clients) (sheet_of out.old at) }
{
    let mut end = at;
    for i in 0..clients {
        end = put_client(out, end, w, ClientId(i + 1));
    }
    end
}

// All slips of a simulation.
pub fn put_slips(out: &mut [u8], w: &[u32]) -> usize
    requires { valid w.now ≡ true }
    ensures { sheet_of out.new result ≡ puts (slips_text (system_of w.now) (setting_of w.now).n (setting_of w.now).clients) (sheet_of out.old 0) }
{
    let n = sim_layout::servers(w);
    let clients = sim_layout::clients(w);
    let p = put_servers(out, 0, w, n);
    put_clients(out, p, w, clients)
}

// Messages in transit.

// From a client to a server, with a timestamp.
fn put_to_server(
    out: &mut [u8],
    at: usize,
    kind: &[u8],
    k: ClientId,
    j: ServerId,
    t: Timestamp,
) -> usize
    ensures { sheet_of out.new result ≡ puts (to_server_text kind.now k j ++ timestamp_text t) (sheet_of out.old at) }
{
    let p = text_sheet::put(out, at, kind);
    let q = text_sheet::put_with(out, p, b" kiosk ", k.0 as u32);
    let e = text_sheet::put_with(out, q, b" keeper ", j.0 as u32);
    text_sheet::put_with(out, e, b" ticket ", t.0)
}

// From a server to a client; what it says follows.
fn put_to_client(out: &mut [u8], at: usize, kind: &[u8], k: ClientId, j: ServerId) -> usize
    ensures { sheet_of out.new result ≡ puts (to_client_text kind.now k j) (sheet_of out.old at) }
{
    let p = text_sheet::put(out, at, kind);
    let q = text_sheet::put_with(out, p, b" keeper ", j.0 as u32);
    text_sheet::put_with(out, q, b" kiosk ", k.0 as u32)
}

fn put_owner(out: &mut [u8], at: usize, o: Option<Request>) -> usize
    ensures { sheet_of out.new result ≡ puts (owner_text o) (sheet_of out.old at) }
{
    match o {
        None => text_sheet::put(out, at, b" free"),
        Some(r) => {
            let p = text_sheet::put(out, at, b" owner ");
            put_request(out, p, r)
        }
    }
}

fn put_response(out: &mut [u8], at: usize, k: ClientId, j: ServerId, o: Option<Request>) -> usize
    ensures { sheet_of out.new result ≡ puts (message_text (Response k j o)) (sheet_of out.old at) }
{
    let p = put_to_client(out, at, b" RESPONSE", k, j);
    put_owner(out, p, o)
}

fn put_check(out: &mut [u8], at: usize, k: ClientId, j: ServerId, t: Timestamp) -> usize
    ensures { sheet_of out.new result ≡ puts (message_text (Check k j t)) (sheet_of out.old at) }
{
    let p = put_to_client(out, at, b" CHECK", k, j);
    text_sheet::put_with(out, p, b" ticket ", t.0)
}

fn put_message(out: &mut [u8], at: usize, m: Message) -> usize
    ensures { sheet_of out.new result ≡ puts (message_text m) (sheet_of out.old at) }
{
    match m {
        Message::Request(k, j, t) => put_to_server(out, at, b" REQUEST", k, j, t),
        Message::Yield(k, j, t) => put_to_server(out, at, b" YIELD", k, j, t),
        Message::Release(k, j, t) => put_to_server(out, at, b" RELEASE", k, j, t),
        Message::Inquiry(k, j, t) => put_to_server(out, at, b" INQUIRY", k, j, t),
        Message::Response(k, j, o) => put_response(out, at, k, j, o),
        Message::Check(k, j, t) => put_check(out, at, k, j, t),
    }
}

// Whether a message was taken, or waits.
fn put_standing(out: &mut [u8], at: usize, delivered: bool) -> usize
    ensures { sheet_of out.new result ≡ puts (standing_text delivered ∷ []) (sheet_of out.old at) }
{
    if delivered {
        return text_sheet::put(out, at, b" taken");
    }
    text_sheet::put(out, at, b" waiting")
}

// The message in slot i, a used one.
fn put_in_transit(out: &mut [u8], at: usize, w: &[u32], i: usize) -> usize
    requires { (valid w.now ≡ true) × (i < length_of w.now) }
    ensures { sheet_of out.new result ≡ puts (in_transit_text (slot_in (transit_words w.now) i)) (sheet_of out.old at) }
{
    let number = sim_layout::number_at(w, i);
    let delivered = sim_layout::is_delivered(w, i);
    let m = sim_layout::message_at(w, i);
    let p = text_sheet::put_with(out, at, b"mail ", number.0);
    let q = put_message(out, p, m);
    let e = put_standing(out, q, delivered);
    text_sheet::put(out, e, b"\n")
}

fn put_mail(out: &mut [u8], at: usize, w: &[u32]) -> usize
    requires { valid w.now ≡ true }
    ensures { sheet_of out.new result ≡ puts (mail_text (system_of w.now).transit) (sheet_of out.old at) }
{
    let len = sim_layout::in_transit(w);
    let mut end = at;
    for i in 0..len {
        end = put_in_transit(out, end, w, i);
    }
    end
}

// All slips of a simulation, and behind them its messages in transit.
pub fn put_slips_mail(out: &mut [u8], w: &[u32]) -> usize
    requires { valid w.now ≡ true }
    ensures { sheet_of out.new result ≡ puts (slips_mail_text (system_of w.now) (setting_of w.now).n (setting_of w.now).clients) (sheet_of out.old 0) }
{
    let p = put_slips(out, w);
    put_mail(out, p, w)
}

// Messages in transit by receiver.

fn put_entry(out: &mut [u8], at: usize, number: MessageNumber, delivered: bool) -> usize
    ensures { sheet_of out.new result ≡ puts (entry_text (record { number = number.0; delivered = delivered })) (sheet_of out.old at) }
{
    let p = text_sheet::put_with(out, at, b" ", number.0);
    put_standing(out, p, delivered)
}

// The entries of a receiver. Only these are looked at.
fn put_entries(out: &mut [u8], at: usize, w: &[u32], r: Receiver) -> usize
    requires { valid w.now ≡ true }
    ensures { sheet_of out.new result ≡ puts (entries_text (index_of r (system_of w.now).transit)) (sheet_of out.old at) }
{
    let len = sim_layout::in_transit(w);
    let mut end = at;
    for i in 0..len {
        let Some((number, delivered)) = sim_layout::entry_of(w, r, i) else {
            return end;
        };
        end = put_entry(out, end, number, delivered);
    }
    end
}

fn put_receiver(out: &mut [u8], at: usize, r: Receiver) -> usize
    ensures { sheet_of out.new result ≡ puts (receiver_text r) (sheet_of out.old at) }
{
    match r {
        Receiver::Client(k) => text_sheet::put_with(out, at, b"kiosk ", k.0 as u32),
        Receiver::Server(j) => text_sheet::put_with(out, at, b"keeper ", j.0 as u32),
    }
}

fn put_box(out: &mut [u8], at: usize, w: &[u32], r: Receiver) -> usize
    requires { valid w.now ≡ true }
    ensures { sheet_of out.new result ≡ puts (box_text (system_of w.now) r) (sheet_of out.old at) }
{
    let p = put_receiver(out, at, r);
    let q = text_sheet::put(out, p, b" mail");
    let e = put_entries(out, q, w, r);
    text_sheet::put(out, e, b"\n")
}

// The boxes of the receivers 1 to `n` of a kind.
fn put_boxes_of<F: Fn(u16) -> Receiver>(
    out: &mut [u8],
    at: usize,
    w: &[u32],
    n: u16,
    receiver: F,
) -> usize
    requires callable { F.IsAlwaysCallable receiver }
    requires simulation { valid w.now ≡ true }
    ensures { (kind : ℕ → Receiver) → ((i : ℕ) (r : Receiver) → F.post receiver i r → r ≡ kind i) → sheet_of out.new result ≡ puts (boxes_of kind (system_of w.now) n) (sheet_of out.old at) }
{
    let mut end = at;
    for i in 0..n {
        end = put_box(out, end, w, receiver(i + 1));
    }
    end
}

fn put_boxes(out: &mut [u8], at: usize, w: &[u32]) -> usize
    requires { valid w.now ≡ true }
    ensures { sheet_of out.new result ≡ puts (boxes_text (system_of w.now) (setting_of w.now).n (setting_of w.now).clients) (sheet_of out.old at) }
{
    let n = sim_layout::servers(w);
    let clients = sim_layout::clients(w);
    let p = put_boxes_of(out, at, w, n, |j| Receiver::Server(ServerId(j)));
    put_boxes_of(out, p, w, clients, |k| Receiver::Client(ClientId(k)))
}

// All slips of a simulation, and behind them its messages in transit by receiver.
pub fn put_slips_boxes(out: &mut [u8], w: &[u32]) -> usize
    requires { valid w.now ≡ true }
    ensures { sheet_of out.new result ≡ puts (slips_boxes_text (system_of w.now) (setting_of w.now).n (setting_of w.now).clients) (sheet_of out.old 0) }
{
    let p = put_slips(out, w);
    put_boxes(out, p, w)
}
