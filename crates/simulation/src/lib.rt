// The bounded simulation of a whole system: a new one, and its nine events. Document 01 says gallery for simulation.
// The state is words that the caller lends (`sim_layout`): an event loads one client's or one server's record, steps it, and stores it (`sim_takes`, `sim_acts`).

#![tactic(auto)]

ghost use Rattle.std.specs.Prelude.{◌≡◌, true, length};
ghost use Rattle.sim_layout.specs.Layout.{view, valid};
ghost use Rattle.sim_changes.specs.Happens.{happens, Leaves, moved_of, reply_of, EventLeaves, event_reply, moved_says, reply_says, event_says};
ghost use Rattle.simulation.specs.Opens.{in_range, opens, new_reply, open_says, NewLeaves};

use ids::Refusal;
pub use sim_changes::Effect;
use sim_layout::SIMULATION_WORDS;
use system::{Event, Setting};

fn work(w: &mut [u32], e: Event) -> Result<u32, Refusal>
    requires { valid w.old ≡ true }
    ensures { Leaves w.old e w.new × (result ≡ moved_of (happens w.old e)) }
{
    match e {
        Event::Try(k) => sim_acts::try_enter(w, k),
        Event::Exit(k) => sim_acts::exit(w, k),
        Event::Fall(k) => sim_acts::fall(w, k),
        Event::Down(j) => sim_acts::down(w, j),
        Event::Up(j) => sim_acts::up(w, j),
        Event::Take(i) => sim_takes::take(w, i),
        Event::Drop(i) => sim_acts::drop(w, i),
        Event::Miss(j) => sim_acts::miss(w, j),
        Event::Check(j) => sim_acts::check(w, j),
    }
}

// An event of a simulation that is known to be valid: for callers that made it, or tested it once.
pub fn happen(w: &mut [u32], e: Event) -> Result<Effect, Refusal>
    requires { valid w.old ≡ true }
    ensures { Leaves w.old e w.new × (result ≡ reply_of (view w.old) (happens w.old e)) }
{
    let sent = work(w, e)?;
    let holders = sim_layout::holders(w);
    Ok(Effect { sent, holders })
}

// An event of any words: words that are no simulation are refused, and stay.
pub fn event(w: &mut [u32], e: Event) -> Result<Effect, Refusal>
    ensures event_leaves { EventLeaves w.old e w.new × (result ≡ event_reply w.old e) }
    ensures numbers { reply_says result ≡ event_says w.old e }
{
    if !sim_layout::valid(w) {
        return Err(Refusal::InvalidRecord);
    }
    happen(w, e)
}

// Whether a simulation can be of this setting; it may be unsafe, or stall.
pub fn in_range(s: Setting) -> bool
    ensures { result ≡ in_range s }
{
    quorum::in_range_up_to(system::MAX_SERVERS, s.n, s.m, s.f)
        && ids::within_limit(s.clients, system::MAX_CLIENTS)
}

// A new simulation of a setting. Refused 7.
pub fn new(w: &mut [u32], s: Setting) -> Result<u32, Refusal>
    ensures new_leaves { NewLeaves s w.old w.new × (result ≡ new_reply (opens (length w.old) s)) }
    ensures numbers { moved_says result ≡ open_says (opens (length w.old) s) }
{
    if w.len() != SIMULATION_WORDS {
        return Err(Refusal::ParameterOutOfRange);
    }
    if !quorum::in_range_up_to(system::MAX_SERVERS, s.n, s.m, s.f) {
        return Err(Refusal::ParameterOutOfRange);
    }
    if !ids::within_limit(s.clients, system::MAX_CLIENTS) {
        return Err(Refusal::ParameterOutOfRange);
    }
    sim_changes::start(w, s);
    Ok(0)
}

// A simulation by value, for callers that keep one and go on from another: it costs a copy of its words at each event.
#[derive(Clone, Copy)]
pub struct Simulation {
    pub words: [u32; SIMULATION_WORDS],
}

// A simulation after an event, and what the event did.
#[derive(Clone, Copy)]
pub struct Happened {
    pub simulation: Simulation,
    pub reply: Result<Effect, Refusal>,
}

// An event of a simulation by value. Refused as `event` is, and then the simulation is as it was.
pub fn event_of(s: Simulation, e: Event) -> Happened
    ensures event_leaves { EventLeaves s.words e result.simulation.words × (result.reply ≡ event_reply s.words e) }
    ensures numbers { reply_says result.reply ≡ event_says s.words e }
{
    let mut words = s.words;
    let reply = event(&mut words, e);
    let simulation = Simulation { words };
    Happened { simulation, reply }
}
