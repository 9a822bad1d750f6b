// A run of a setting's events, without any script: a simulation's words, which the caller lends, and two counts by value.
// What a run is stands in specs/Run.

#![tactic(auto)]

ghost use Rattle.std.specs.Prelude.{◌≡◌, true, ◌<◌, length};
ghost use Rattle.sim_layout.specs.Layout.{valid};
ghost use Rattle.simulation.specs.Opens.{opens};
ghost use Rattle.sim_run.specs.Calls.{max_accepted, new_answer, begun_says, start_says, NewLeaves, Goes};
ghost use Rattle.sim_run.specs.Inner.{counted as counted_by};

use ids::Refusal;
pub use sim_changes::Effect;
use system::{Event, Setting};

// The events accepted, and the most living clients in the critical section at once.
#[derive(Clone, Copy)]
pub struct Counts {
    pub accepted: u32,
    pub holding: u32,
}

// The counts after an event, and what the event did.
#[derive(Clone, Copy)]
pub struct Went {
    pub counts: Counts,
    pub reply: Result<Effect, Refusal>,
}

// The counts after a reply.
fn counted(c: Counts, reply: Result<Effect, Refusal>) -> Counts
    requires { c.accepted < max_accepted }
    ensures { result ≡ counted_by c reply }
{
    match reply {
        Err(_) => c,
        Ok(effect) => {
            let accepted = c.accepted + 1;
            let holding = c.holding.max(effect.holders);
            Counts { accepted, holding }
        }
    }
}

// A new run of a setting. Refused 7, and then the words stay.
pub fn new(w: &mut [u32], s: Setting) -> Result<Counts, Refusal>
    ensures new_leaves { NewLeaves s w.old w.new × (result ≡ new_answer (opens (length w.old) s) s) }
    ensures numbers { begun_says result ≡ start_says (opens (length w.old) s) s }
{
    simulation::new(w, s)?;
    Ok(Counts {
        accepted: 0,
        holding: 0,
    })
}

// An event of a run whose words are known to be valid.
pub fn event(w: &mut [u32], counts: Counts, e: Event) -> Went
    requires { (valid w.old ≡ true) × (counts.accepted < max_accepted) }
    ensures { Goes counts w.old e w.new result }
{
    let reply = simulation::happen(w, e);
    let counts = counted(counts, reply);
    Went { counts, reply }
}
