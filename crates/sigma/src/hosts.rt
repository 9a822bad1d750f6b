// A server's record as a struct.

ghost use Rattle.capi.specs.Steps.{server_message, server_suspect, server_check};
ghost use Rattle.capi_host.specs.Leaves.{Leaves};

use capi_host::Host;

// The server takes a REQUEST, YIELD, RELEASE or INQUIRY. Refused 21, 5, 13, 14, 6.
#[unsafe(no_mangle)]
pub extern "C" fn sigma_host_message(h: &mut Host, message: &[u32], out: &mut [u8]) -> u32
    ensures { Leaves (server_message h.old.words message.now) result h.old h.new out.old out.new }
{
    capi_host::sigma_host_message(h, message, out)
}

// The owner is suspected to have crashed. Refused 21, 15, 6.
#[unsafe(no_mangle)]
pub extern "C" fn sigma_host_suspect(h: &mut Host, out: &mut [u8]) -> u32
    ensures { Leaves (server_suspect h.old.words) result h.old h.new out.old out.new }
{
    capi_host::sigma_host_suspect(h, out)
}

// CHECK to the owner. Refused 21, 6.
#[unsafe(no_mangle)]
pub extern "C" fn sigma_host_check(h: &mut Host, out: &mut [u8]) -> u32
    ensures { Leaves (server_check h.old.words) result h.old h.new out.old out.new }
{
    capi_host::sigma_host_check(h, out)
}
