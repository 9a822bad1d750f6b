// A message of a simulation is taken by its receiver. `take` is for `simulation`, whose words are valid.

#![tactic(auto)]

ghost use Rattle.std.specs.Prelude.{◌≡◌, true};
ghost use Rattle.system.specs.declared.Event.TheVariants.{Take};
ghost use Rattle.sim_layout.specs.Layout.{valid};
ghost use Rattle.sim_changes.specs.Changes.{Pends, number_at};
ghost use Rattle.sim_changes.specs.Happens.{happens, Leaves, moved_of};

use ids::Refusal;
use server_votes::Tag;
use sim_changes::{ClientAct, ServerAct, client_acts, server_acts};
use system::MessageNumber;
use wire::Message;

// The message in slot `i`, which is pending: its kind says who takes it.
fn deliver(w: &mut [u32], i: usize, m: Message) -> Result<u32, Refusal>
    requires { Pends w.old i m }
    ensures { Leaves w.old (Take (number_at w.old i)) w.new × (result ≡ moved_of (happens w.old (Take (number_at w.old i)))) }
{
    match m {
        Message::Request(k, j, t) => server_acts(w, j, ServerAct::Take(i, Tag::Request, k, t)),
        Message::Yield(k, j, t) => server_acts(w, j, ServerAct::Take(i, Tag::Yield, k, t)),
        Message::Release(k, j, t) => server_acts(w, j, ServerAct::Take(i, Tag::Release, k, t)),
        Message::Inquiry(k, j, t) => server_acts(w, j, ServerAct::Take(i, Tag::Inquiry, k, t)),
        Message::Response(k, j, o) => client_acts(w, k, ClientAct::Response(i, j, o)),
        Message::Check(k, j, t) => client_acts(w, k, ClientAct::Check(i, j, t)),
    }
}

// The receiver takes the message.
pub fn take(w: &mut [u32], number: MessageNumber) -> Result<u32, Refusal>
    requires { valid w.old ≡ true }
    ensures { Leaves w.old (Take number) w.new × (result ≡ moved_of (happens w.old (Take number))) }
{
    let i = sim_layout::find_pending(w, number);
    if i == sim_layout::in_transit(w) {
        return Err(Refusal::NoSuchParty);
    }
    let m = sim_layout::message_at(w, i);
    deliver(w, i, m)
}
