// The check of a setting: whether n servers with threshold m and f faults exclude and do not stall, and the run that shows it
// where they do not exclude.

#![tactic(auto)]

ghost use Rattle.std.specs.Prelude.{◌≡◌, true, ◌+◌, ◌*◌, ◌-◌, ◌≤◌, pos, negsuc, ◌-ℤ◌};
ghost use Rattle.system.specs.Setting.{takes, lost};
ghost use Rattle.system.specs.declared.Event.TheVariants.{Try};
ghost use Rattle.ids.specs.Limits.{max_servers};
ghost use Rattle.quorum.specs.Check.{in_range_up_to, in_range, margin as margin_of, judged, verdict, verdict_says, check_says, Demand3};
ghost use Rattle.quorum.specs.Run.{listed_event, run_event, asked_says, event_says};
ghost use Rattle.quorum.specs.Inner.{run_length, longest_run, first_entry, restart as restart_at, second_entry, event_at};
ghost use Rattle.quorum.specs.Threshold.{threshold_of, threshold_says, default_says, most_faults};
ghost use Rattle.quorum.specs.Proposal.{above_half, Bears, proposal_of, Proposes, proposal_says, propose_says};
ghost use Rattle.system.specs.Numbered.{client_no};

use ids::{ClientId, Refusal, ServerId};
use system::{Event, MessageNumber};

// What the check says of a setting: the margin, and where it is unsafe how many events its run has. An enum of its own, since three of its four
// cases have the margin: as a Result it would stand in the error too.
#[derive(Clone, Copy)]
pub enum Verdict {
    Accepted(i32),
    Unsafe(i32, u32),
    Stalls(i32),
    OutOfRange,
}

// The thresholds that the commissioning screen proposes: all from the first to the second. Three cases, which the screen tells apart: no Option says
// two kinds of none.
#[derive(Clone, Copy)]
pub enum Proposal {
    Thresholds(u32, u32),
    NoThreshold,
    OutOfRange,
}

// Whether a setting is in range where there are at most so many servers.
pub fn in_range_up_to(limit: u32, n: u32, m: u32, f: u32) -> bool
    ensures { result ≡ in_range_up_to limit n m f }
{
    if !ids::within_limit(n, limit) {
        return false;
    }
    if !ids::within_limit(m, n) {
        return false;
    }
    f <= n
}

pub fn in_range(n: u32, m: u32, f: u32) -> bool
    ensures { result ≡ in_range n m f }
{
    in_range_up_to(ids::MAX_SERVERS, n, m, f)
}

fn margin(n: u32, m: u32, f: u32) -> i32
    requires { (n ≤ max_servers) × (m ≤ max_servers) × (f ≤ max_servers) }
    ensures { result ≡ margin_of n m f }
{
    let twice = (2 * m) as i32;
    let servers = n as i32;
    let faults = f as i32;
    twice - servers - faults
}

// The servers that restart in the unsafe run.
fn restarts(n: u32, m: u32) -> u32
    requires { (n ≤ max_servers) × (m ≤ max_servers) }
    ensures { result ≡ lost n m }
{
    if 2 * m < n {
        return 0;
    }
    2 * m - n
}

// The events of the unsafe run.
fn events(n: u32, m: u32) -> u32
    requires { (n ≤ max_servers) × (m ≤ max_servers) }
    ensures { result ≡ run_length n m }
{
    4 * m + 2 + 2 * restarts(n, m)
}

// A setting in range.
fn judge(n: u32, m: u32, f: u32) -> Verdict
    requires { (n ≤ max_servers) × (m ≤ n) × (f ≤ n) }
    ensures { result ≡ judged n m f }
{
    let by = margin(n, m, f);
    if 2 * m <= n + f {
        let count = events(n, m);
        return Verdict::Unsafe(by, count);
    }
    if n < m + f {
        return Verdict::Stalls(by);
    }
    Verdict::Accepted(by)
}

// The check of a setting: refused 7, 8 or 9, or accepted.
pub fn check(n: u32, m: u32, f: u32) -> Verdict
    ensures value { (result ≡ verdict n m f) × Demand3 n m f result }
    ensures numbers { verdict_says result ≡ check_says n m f }
{
    if !in_range(n, m, f) {
        return Verdict::OutOfRange;
    }
    judge(n, m, f)
}

fn try_of(k: u16) -> Event
    ensures { result ≡ Try (client_no k) }
{
    let c = ClientId(k);
    Event::Try(c)
}

fn take_of(i: u32) -> Event
    ensures { result ≡ takes i }
{
    let x = MessageNumber(i);
    Event::Take(x)
}

// Client 1 enters.
fn first_entry(n: u32, m: u32, i: u32) -> Event
    requires { (n ≤ max_servers) × (m ≤ max_servers) × (i ≤ longest_run) }
    ensures { result ≡ first_entry n m i }
{
    if i <= 1 {
        return try_of(1);
    }
    if i <= 1 + m {
        return take_of(i - 1);
    }
    take_of(n + (i - (1 + m)))
}

// The first `lost` servers go down in order, then up in order.
fn restart(lost: u32, i: u32) -> Event
    requires { i ≤ longest_run }
    ensures { result ≡ restart_at lost i }
{
    if i <= lost {
        let j = ServerId(i as u16);
        return Event::Down(j);
    }
    let j = ServerId((i - lost) as u16);
    Event::Up(j)
}

// Client 2 enters by those and by the servers from m + 1 up.
fn second_entry(n: u32, m: u32, lost: u32, i: u32) -> Event
    requires { (n ≤ max_servers) × (m ≤ max_servers) × (lost ≤ max_servers) × (i ≤ longest_run) }
    ensures { result ≡ second_entry n m lost i }
{
    if i <= 1 {
        return try_of(2);
    }
    if i <= 1 + lost {
        return take_of(n + m + (i - 1));
    }
    if i <= 1 + m {
        return take_of(n + m + (m + (i - (1 + lost))));
    }
    take_of(n + m + n + (i - (1 + m)))
}

fn event_at(n: u32, m: u32, i: u32) -> Event
    requires { (n ≤ max_servers) × (m ≤ n) × (i ≤ longest_run) }
    ensures { result ≡ event_at n m i }
{
    let first = 1 + 2 * m;
    if i <= first {
        return first_entry(n, m, i);
    }
    let lost = restarts(n, m);
    let second = first + 2 * lost;
    if i <= second {
        return restart(lost, i - first);
    }
    second_entry(n, m, lost, i - second)
}

fn listed(n: u32, m: u32, f: u32, i: u32) -> Result<Event, Refusal>
    requires { (n ≤ max_servers) × (m ≤ n) × (f ≤ n) }
    ensures { result ≡ listed_event n m f i }
{
    if n + f < 2 * m {
        return Err(Refusal::NoSuchParty);
    }
    if !ids::within_limit(i, events(n, m)) {
        return Err(Refusal::NoSuchParty);
    }
    Ok(event_at(n, m, i))
}

// The event with number i, from 1, of the run that shows an unsafe setting.
pub fn run_event(n: u32, m: u32, f: u32, i: u32) -> Result<Event, Refusal>
    ensures value { result ≡ run_event n m f i }
    ensures numbers { asked_says result ≡ event_says n m f i }
{
    if !in_range(n, m, f) {
        return Err(Refusal::ParameterOutOfRange);
    }
    listed(n, m, f, i)
}

// The threshold that the commissioning screen proposes: two thirds of n, rounded up. `None` where n is out of range.
pub fn default_threshold(n: u32) -> Option<u32>
    ensures value { result ≡ threshold_of n }
    ensures numbers { threshold_says result ≡ default_says n }
{
    if !ids::within_limit(n, ids::MAX_SERVERS) {
        return None;
    }
    Some((2 * n + 2) / 3)
}

// The most faults with which the default threshold of n servers is accepted.
pub fn most_faults(n: u32) -> u32
    ensures { (result ≡ most_faults n) × Bears n result }
{
    n.saturating_sub(1) / 3
}

fn above_half(x: u32) -> u32
    ensures { result ≡ above_half x }
{
    x / 2 + 1
}

// The thresholds with which n servers and f faults are accepted.
pub fn propose(n: u32, f: u32) -> Proposal
    ensures value { (result ≡ proposal_of n f) × Proposes n f result }
    ensures numbers { proposal_says result ≡ propose_says n f }
{
    if !ids::within_limit(n, ids::MAX_SERVERS) {
        return Proposal::OutOfRange;
    }
    if n < f {
        return Proposal::OutOfRange;
    }
    let least = above_half(n + f);
    if n < least + f {
        return Proposal::NoThreshold;
    }
    Proposal::Thresholds(least, n - f)
}
