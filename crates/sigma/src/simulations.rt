// A simulation, event by event.

ghost use Rattle.std.specs.Prelude.{◌≡◌, length};
ghost use Rattle.simulation.specs.Opens.{opens, open_says, NewLeaves};
ghost use Rattle.capi_simulation.specs.Calls.{asked, Leaves};

// A new simulation of a setting. Refused 7.
#[unsafe(no_mangle)]
pub extern "C" fn sigma_simulation_new(
    n: u32,
    m: u32,
    f: u32,
    clients: u32,
    words: &mut [u32],
) -> u32
    ensures { (result ≡ (open_says (opens (length words.old) (record { n = n; m = m; f = f; clients = clients }))).number) × NewLeaves (record { n = n; m = m; f = f; clients = clients }) words.old words.new }
{
    capi_simulation::sigma_simulation_new(n, m, f, clients, words)
}

// An event, by its kind and the number that it names. Refused 16, 21, 17, 18, 15, 20, 10, 11, 19, 6.
#[unsafe(no_mangle)]
pub extern "C" fn sigma_simulation_event(
    words: &mut [u32],
    kind: u32,
    number: u32,
    answer: &mut [u32],
) -> u32
    ensures { Leaves words.old (asked kind number) answer.old result words.new answer.new }
{
    capi_simulation::sigma_simulation_event(words, kind, number, answer)
}
