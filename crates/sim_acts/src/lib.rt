// The eight events of a simulation in which no message is taken. The public functions are for `simulation`, whose words are valid.

#![tactic(auto)]

ghost use Rattle.std.specs.Prelude.{◌≡◌, true, Ok, Err, if◌then◌else◌};
ghost use Rattle.ids.specs.Limits.{within};
ghost use Rattle.ids.specs.declared.Refusal.TheVariants.{NoSuchParty};
ghost use Rattle.system.specs.declared.Event.TheVariants.{Try, Exit, Fall, Down, Up, Drop, Miss, Check};
ghost use Rattle.sim_layout.specs.Layout.{valid, setting_of};
ghost use Rattle.sim_changes.specs.Happens.{happens, Leaves, moved_of};

use ids::{ClientId, Refusal, ServerId};
use sim_changes::{ClientAct, ServerAct};
use system::MessageNumber;

// An event of a client or server that the setting lacks is refused.

fn client_there(w: &[u32], k: ClientId) -> Result<(), Refusal>
    requires { valid w.now ≡ true }
    ensures { result ≡ if within k.0 (setting_of w.now).clients then Ok tt else Err NoSuchParty }
{
    if !sim_layout::has_client(w, k) {
        return Err(Refusal::NoSuchParty);
    }
    Ok(())
}

fn server_there(w: &[u32], j: ServerId) -> Result<(), Refusal>
    requires { valid w.now ≡ true }
    ensures { result ≡ if within j.0 (setting_of w.now).n then Ok tt else Err NoSuchParty }
{
    if !sim_layout::has_server(w, j) {
        return Err(Refusal::NoSuchParty);
    }
    Ok(())
}

// The events that send nothing.

// The client falls.
pub fn fall(w: &mut [u32], k: ClientId) -> Result<u32, Refusal>
    requires { valid w.old ≡ true }
    ensures { Leaves w.old (Fall k) w.new × (result ≡ moved_of (happens w.old (Fall k))) }
{
    client_there(w, k)?;
    if !sim_layout::is_living(w, k) {
        return Err(Refusal::PartyDown);
    }
    sim_layout::fall_client(w, k);
    Ok(0)
}

// The server comes up.
pub fn up(w: &mut [u32], j: ServerId) -> Result<u32, Refusal>
    requires { valid w.old ≡ true }
    ensures { Leaves w.old (Up j) w.new × (result ≡ moved_of (happens w.old (Up j))) }
{
    server_there(w, j)?;
    if sim_layout::is_up(w, j) {
        return Err(Refusal::PartyDown);
    }
    sim_layout::rise_server(w, j);
    Ok(0)
}

// The message is gone, wherever it stands.
pub fn drop(w: &mut [u32], number: MessageNumber) -> Result<u32, Refusal>
    requires { valid w.old ≡ true }
    ensures { Leaves w.old (Drop number) w.new × (result ≡ moved_of (happens w.old (Drop number))) }
{
    let i = sim_layout::find_present(w, number);
    if i == sim_layout::in_transit(w) {
        return Err(Refusal::NoSuchParty);
    }
    sim_changes::remove_message(w, i);
    Ok(0)
}

// The server goes down, and forgets everything.
pub fn down(w: &mut [u32], j: ServerId) -> Result<u32, Refusal>
    requires { valid w.old ≡ true }
    ensures { Leaves w.old (Down j) w.new × (result ≡ moved_of (happens w.old (Down j))) }
{
    server_there(w, j)?;
    if !sim_layout::is_up(w, j) {
        return Err(Refusal::PartyDown);
    }
    sim_layout::sink_server(w, j);
    sim_changes::restart_messages(w, j);
    sim_changes::note_down(w, j);
    Ok(0)
}

// The events that send.

// A client begins its step: document 01's try.
pub fn try_enter(w: &mut [u32], k: ClientId) -> Result<u32, Refusal>
    requires { valid w.old ≡ true }
    ensures { Leaves w.old (Try k) w.new × (result ≡ moved_of (happens w.old (Try k))) }
{
    client_there(w, k)?;
    sim_changes::client_acts(w, k, ClientAct::Try)
}

// A client leaves the critical section. Its own test of the party, so that a wrong answer (`exit_of_nobody`) can be that of this event alone.
pub fn exit(w: &mut [u32], k: ClientId) -> Result<u32, Refusal>
    requires { valid w.old ≡ true }
    ensures { Leaves w.old (Exit k) w.new × (result ≡ moved_of (happens w.old (Exit k))) }
{
    if !sim_layout::has_client(w, k) {
        return Err(Refusal::NoSuchParty);
    }
    sim_changes::client_acts(w, k, ClientAct::Exit)
}

// A server's owner has fallen: document 01's missing owner.
pub fn miss(w: &mut [u32], j: ServerId) -> Result<u32, Refusal>
    requires { valid w.old ≡ true }
    ensures { Leaves w.old (Miss j) w.new × (result ≡ moved_of (happens w.old (Miss j))) }
{
    server_there(w, j)?;
    if !sim_layout::is_up(w, j) {
        return Err(Refusal::PartyDown);
    }
    let Some(owner) = sim_changes::owner_of(w, j) else {
        return Err(Refusal::NoOwner);
    };
    if sim_layout::is_living(w, owner.client) {
        return Err(Refusal::OwnerLives);
    }
    sim_changes::server_steps(w, j, ServerAct::Suspect)
}

// A server asks its owner.
pub fn check(w: &mut [u32], j: ServerId) -> Result<u32, Refusal>
    requires { valid w.old ≡ true }
    ensures { Leaves w.old (Check j) w.new × (result ≡ moved_of (happens w.old (Check j))) }
{
    server_there(w, j)?;
    sim_changes::server_acts(w, j, ServerAct::Check)
}
