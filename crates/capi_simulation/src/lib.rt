// The C interface of a simulation: a whole system in words that the host lends, made anew and taken on event by event.
// The crate `sigma` exports these functions, and include/sigma.h declares them.

#![tactic(auto)]

ghost use Rattle.std.specs.Prelude.{◌≡◌, length};
ghost use Rattle.sim_changes.specs.Happens.{event_says};
ghost use Rattle.simulation.specs.Opens.{opens, open_says, NewLeaves};
ghost use Rattle.script_lines.specs.declared.Line.TheVariants as line;
ghost use Rattle.capi_simulation.specs.Calls.{command_of, asked, simulation_says, with_words, Leaves};

use ids::Refusal;
use script_lines::{Command, Line};
use sim_layout::SIMULATION_WORDS;
use simulation::Simulation;
use system::{Event, Setting};

// The words of an answer: the messages sent, and the living holders.
const ANSWER_WORDS: usize = 2;

// A new simulation of a setting. Refused 7.
pub fn sigma_simulation_new(n: u32, m: u32, f: u32, clients: u32, words: &mut [u32]) -> u32
    ensures { (result ≡ (open_says (opens (length words.old) (record { n = n; m = m; f = f; clients = clients }))).number) × NewLeaves (record { n = n; m = m; f = f; clients = clients }) words.old words.new }
{
    let s = Setting { n, m, f, clients };
    match simulation::new(words, s) {
        Ok(_) => 0,
        Err(x) => ids::code_of(x),
    }
}

// The command of a kind, in the script's order of names.
#[tactic(auto, unfolding(crate::specs::Calls::command_of))]
fn command_of(kind: u32) -> Command
    ensures { result ≡ command_of kind }
{
    match kind {
        1 => Command::Try,
        2 => Command::Exit,
        3 => Command::Fall,
        4 => Command::Down,
        5 => Command::Up,
        6 => Command::Take,
        7 => Command::Drop,
        8 => Command::Miss,
        9 => Command::Check,
        _ => Command::Other,
    }
}

// The number of an event with a client or server that nobody has.
fn unknown(words: &[u32]) -> u32
    ensures { result ≡ (simulation_says words.now line.Unknown).number }
{
    if sim_layout::valid(words) {
        return ids::code_of(Refusal::NoSuchParty);
    }
    ids::code_of(Refusal::InvalidRecord)
}

// The number of an event that has no words for its answer: its own refusal, or 6. It happens to a copy.
fn short(words: &[u32], e: Event) -> u32
    ensures { result ≡ (with_words 0 (event_says words.now e)).number }
{
    if words.len() != SIMULATION_WORDS {
        return ids::code_of(Refusal::InvalidRecord);
    }
    let mut copy = [0u32; SIMULATION_WORDS];
    rows::copy(words, &mut copy);
    let s = Simulation { words: copy };
    match simulation::event_of(s, e).reply {
        Ok(_) => ids::code_of(Refusal::RoomShort),
        Err(x) => ids::code_of(x),
    }
}

fn happen(words: &mut [u32], e: Event, answer: &mut [u32]) -> u32
    ensures { Leaves words.old (line.Event e) answer.old result words.new answer.new }
{
    if answer.len() < ANSWER_WORDS {
        return short(words, e);
    }
    match simulation::event(words, e) {
        Ok(effect) => {
            answer[0] = effect.sent;
            answer[1] = effect.holders;
            0
        }
        Err(x) => ids::code_of(x),
    }
}

// An event, by its kind and the number that it names. Refused 16, 21, 17, 18, 15, 20, 10, 11, 19, 6.
pub fn sigma_simulation_event(words: &mut [u32], kind: u32, number: u32, answer: &mut [u32]) -> u32
    ensures { Leaves words.old (asked kind number) answer.old result words.new answer.new }
{
    let command = command_of(kind);
    let line = script_lines::line_of(command, number);
    match line {
        Line::Event(e) => happen(words, e, answer),
        Line::Unknown => unknown(words),
        Line::Bad => ids::code_of(Refusal::BadLine),
    }
}
