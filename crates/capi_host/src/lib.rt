// For a C host whose server's record is a struct: each call takes the struct by reference, and does with its words what the call of `capi` does.
// include/sigma.h declares the struct by the names of its words.

#![tactic(auto)]

ghost use Rattle.capi.specs.Steps.{server_message, server_suspect, server_check};
ghost use Rattle.capi_host.specs.Leaves.{Leaves};

// The record's words, and what the last accepted step sent: messages, and their bytes.
#[repr(C)]
#[derive(Clone, Copy)]
pub struct Host {
    pub words: [u32; words::SERVER_WORDS],
    pub sent: [u32; 2],
}

// The struct after a call, and what the call returns. Document 01 asks for this form (docs/PROMISES.md): a thin function stores what a step by value
// returns.
#[derive(Clone, Copy)]
pub struct Stepped {
    pub host: Host,
    pub code: u32,
}

fn message_step(h: Host, message: &[u32], out: &mut [u8]) -> Stepped
    ensures { Leaves (server_message h.words message.now) result.code h result.host out.old out.new }
{
    let mut words = h.words;
    let mut sent = h.sent;
    let code = capi::sigma_server_message(&mut words, message, out, &mut sent);
    let host = Host { words, sent };
    Stepped { host, code }
}

fn suspect_step(h: Host, out: &mut [u8]) -> Stepped
    ensures { Leaves (server_suspect h.words) result.code h result.host out.old out.new }
{
    let mut words = h.words;
    let mut sent = h.sent;
    let code = capi::sigma_server_suspect(&mut words, out, &mut sent);
    let host = Host { words, sent };
    Stepped { host, code }
}

fn check_step(h: Host, out: &mut [u8]) -> Stepped
    ensures { Leaves (server_check h.words) result.code h result.host out.old out.new }
{
    let mut words = h.words;
    let mut sent = h.sent;
    let code = capi::sigma_server_check(&mut words, out, &mut sent);
    let host = Host { words, sent };
    Stepped { host, code }
}

// The server takes a REQUEST, YIELD, RELEASE or INQUIRY. Refused 21, 5, 13, 14, 6.
pub fn sigma_host_message(h: &mut Host, message: &[u32], out: &mut [u8]) -> u32
    ensures { Leaves (server_message h.old.words message.now) result h.old h.new out.old out.new }
{
    let t = message_step(*h, message, out);
    *h = t.host;
    t.code
}

// The owner is suspected to have crashed. Refused 21, 15, 6.
pub fn sigma_host_suspect(h: &mut Host, out: &mut [u8]) -> u32
    ensures { Leaves (server_suspect h.old.words) result h.old h.new out.old out.new }
{
    let t = suspect_step(*h, out);
    *h = t.host;
    t.code
}

// CHECK to the owner. Refused 21, 6.
pub fn sigma_host_check(h: &mut Host, out: &mut [u8]) -> u32
    ensures { Leaves (server_check h.old.words) result h.old h.new out.old out.new }
{
    let t = check_step(*h, out);
    *h = t.host;
    t.code
}
