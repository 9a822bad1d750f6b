// Messages and records, as words.

ghost use Rattle.std.specs.Prelude.{◌≡◌, length};
ghost use Rattle.wire.specs.Calls.{read_of};
ghost use Rattle.words.specs.Messages.{message_in};
ghost use Rattle.capi.specs.Calls.{read_code, read_words, write_code, write_buffer};
ghost use Rattle.capi.specs.Steps.{lent, Leaves, code_of, record_into, server_message, server_suspect, server_check, client_message, client_begin, client_exit, server_new, client_new, server_upgrade, client_upgrade};

// Reads the message that `bytes` begins with: its five words and the bytes it took, six words in all.
#[unsafe(no_mangle)]
pub extern "C" fn sigma_read(bytes: &[u8], words: &mut [u32]) -> u32
    ensures { (result ≡ read_code (read_of bytes.now) (length words.old)) × (words.new ≡ read_words (read_of bytes.now) words.old) }
{
    capi::sigma_read(bytes, words)
}

// Writes the message of five words at the start of `out`.
#[unsafe(no_mangle)]
pub extern "C" fn sigma_write(words: &[u32], out: &mut [u8]) -> u32
    ensures { (result ≡ write_code (message_in words.now) (length out.old)) × (out.new ≡ write_buffer (message_in words.now) out.old) }
{
    capi::sigma_write(words, out)
}

// The server takes a REQUEST, YIELD, RELEASE or INQUIRY. Refused 21, 5, 13, 14, 6.
#[unsafe(no_mangle)]
pub extern "C" fn sigma_server_message(
    state: &mut [u32],
    message: &[u32],
    out: &mut [u8],
    sent: &mut [u32],
) -> u32
    ensures { Leaves (lent out.old sent.old (server_message state.old message.now)) result state.old state.new out.old out.new sent.old sent.new }
{
    capi::sigma_server_message(state, message, out, sent)
}

// The owner is suspected to have crashed. Refused 21, 15, 6.
#[unsafe(no_mangle)]
pub extern "C" fn sigma_server_suspect(state: &mut [u32], out: &mut [u8], sent: &mut [u32]) -> u32
    ensures { Leaves (lent out.old sent.old (server_suspect state.old)) result state.old state.new out.old out.new sent.old sent.new }
{
    capi::sigma_server_suspect(state, out, sent)
}

// CHECK to the owner. Refused 21, 6.
#[unsafe(no_mangle)]
pub extern "C" fn sigma_server_check(state: &mut [u32], out: &mut [u8], sent: &mut [u32]) -> u32
    ensures { Leaves (lent out.old sent.old (server_check state.old)) result state.old state.new out.old out.new sent.old sent.new }
{
    capi::sigma_server_check(state, out, sent)
}

// The client starts trying. Refused 21, 10, 11, 6.
#[unsafe(no_mangle)]
pub extern "C" fn sigma_client_begin(state: &mut [u32], out: &mut [u8], sent: &mut [u32]) -> u32
    ensures { Leaves (lent out.old sent.old (client_begin state.old)) result state.old state.new out.old out.new sent.old sent.new }
{
    capi::sigma_client_begin(state, out, sent)
}

// The client leaves its critical section. Refused 21, 10, 6.
#[unsafe(no_mangle)]
pub extern "C" fn sigma_client_exit(state: &mut [u32], out: &mut [u8], sent: &mut [u32]) -> u32
    ensures { Leaves (lent out.old sent.old (client_exit state.old)) result state.old state.new out.old out.new sent.old sent.new }
{
    capi::sigma_client_exit(state, out, sent)
}

// The client takes a RESPONSE or CHECK. Refused 21, 5, 12, 6.
#[unsafe(no_mangle)]
pub extern "C" fn sigma_client_message(
    state: &mut [u32],
    message: &[u32],
    out: &mut [u8],
    sent: &mut [u32],
) -> u32
    ensures { Leaves (lent out.old sent.old (client_message state.old message.now)) result state.old state.new out.old out.new sent.old sent.new }
{
    capi::sigma_client_message(state, message, out, sent)
}

// The record of server `id` of 1 to `n`, in the first words. Refused 7.
#[unsafe(no_mangle)]
pub extern "C" fn sigma_server_new(n: u32, id: u32, state: &mut [u32]) -> u32
    ensures { (result ≡ code_of (server_new n id (length state.old))) × (state.new ≡ record_into state.old (server_new n id (length state.old))) }
{
    capi::sigma_server_new(n, id, state)
}

// The record of client `id` with `n` servers and threshold `m`, in the first words. Refused 7.
#[unsafe(no_mangle)]
pub extern "C" fn sigma_client_new(n: u32, m: u32, id: u32, state: &mut [u32]) -> u32
    ensures { (result ≡ code_of (client_new n m id (length state.old))) × (state.new ≡ record_into state.old (client_new n m id (length state.old))) }
{
    capi::sigma_client_new(n, m, id, state)
}

// A server's saved record, in any form that it has had, as a record of today in the first words. Refused 21, 6.
#[unsafe(no_mangle)]
pub extern "C" fn sigma_server_upgrade(old: &[u32], state: &mut [u32]) -> u32
    ensures { (result ≡ code_of (server_upgrade old.now (length state.old))) × (state.new ≡ record_into state.old (server_upgrade old.now (length state.old))) }
{
    capi::sigma_server_upgrade(old, state)
}

// A client's. Refused 21, 6.
#[unsafe(no_mangle)]
pub extern "C" fn sigma_client_upgrade(old: &[u32], state: &mut [u32]) -> u32
    ensures { (result ≡ code_of (client_upgrade old.now (length state.old))) × (state.new ≡ record_into state.old (client_upgrade old.now (length state.old))) }
{
    capi::sigma_client_upgrade(old, state)
}
