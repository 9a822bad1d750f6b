// The server's record stays where its host keeps it: each call takes it by reference and leaves in it what `server`'s call of the same name returns.

#![tactic(auto)]

ghost use Rattle.std.specs.Prelude.{length};
ghost use Rattle.wire.specs.Step.{with_room};
ghost use Rattle.server.specs.Calls.{message_outcome, suspect_outcome, check_outcome};
ghost use Rattle.server_host.specs.Leaves.{Leaves};

use ids::Refusal;
use server::Server;
use wire::{Message, Sent};

// Lines 26 to 45: a REQUEST, YIELD, RELEASE or INQUIRY. Refused 21, 5, 13, 14, 6.
pub fn message(s: &mut Server, m: Message, out: &mut [u8]) -> Result<Sent, Refusal>
    ensures { Leaves (with_room (length out.old) (message_outcome s.old m)) result s.old s.new out.old out.new }
{
    let t = server::message(*s, m, out);
    *s = t.server;
    t.answer
}

// Lines 46 and 47: the owner is suspected to have crashed. Refused 21, 15, 6.
pub fn suspect(s: &mut Server, out: &mut [u8]) -> Result<Sent, Refusal>
    ensures { Leaves (with_room (length out.old) (suspect_outcome s.old)) result s.old s.new out.old out.new }
{
    let t = server::suspect(*s, out);
    *s = t.server;
    t.answer
}

// Lines 48 and 49: CHECK to the owner. Refused 21, 6.
pub fn check(s: &mut Server, out: &mut [u8]) -> Result<Sent, Refusal>
    ensures { Leaves (with_room (length out.old) (check_outcome s.old)) result s.old s.new out.old out.new }
{
    let t = server::check(*s, out);
    *s = t.server;
    t.answer
}
