// For C: a packet read message by message, and packed. The crate `sigma` exports these functions, and include/sigma.h declares them.

#![tactic(auto)]

ghost use Rattle.std.specs.Prelude.{◌≡◌, ltb, length, if◌then◌else◌};
ghost use Rattle.std.proofs.lemmas.List.Edits.{sets};
ghost use Rattle.ids.specs.Refusals.{code};
ghost use Rattle.ids.specs.declared.Refusal.TheVariants.{RoomShort};
ghost use Rattle.wire.specs.Says.{read_values};
ghost use Rattle.packet.specs.Reading.{next_of};
ghost use Rattle.packet.specs.Packing.{pack_of, buffer_after};
ghost use Rattle.capi.specs.Calls.{read_size, written_code};
ghost use Rattle.capi_packet.specs.Calls.{next_code, next_words};

use ids::Refusal;
use wire::Fields;

// The numbers of no message, for the packet's end.
fn no_fields() -> Fields
    ensures { result ≡ record { kind = 0; client = 0; server = 0; timestamp = 0; owner = 0 } }
{
    Fields {
        kind: 0,
        client: 0,
        server: 0,
        timestamp: 0,
        owner: 0,
    }
}

// A message's words, if there is room for them.
fn answer(words: &mut [u32], f: Fields, used: u32) -> u32
    ensures { (result ≡ (if ltb (length words.old) read_size then code RoomShort else 0)) × (words.new ≡ (if ltb (length words.old) read_size then words.old else sets words.old 0 (read_values f used))) }
{
    if words.len() < capi::READ_WORDS {
        return ids::code_of(Refusal::RoomShort);
    }
    capi::put_words(words, f, used);
    0
}

// Reads the message at place `at` of a packet, which is judged whole first: its five words and its bytes, six words in all, which are
// 0 where the packet ends. The first message stands at 2. Refused 22, 2, 3, 5, 22, 6.
pub fn sigma_packet_next(packet: &[u8], at: usize, words: &mut [u32]) -> u32
    ensures { (result ≡ next_code (next_of packet.now at) (length words.old)) × (words.new ≡ next_words (next_of packet.now at) at words.old) }
{
    match packet::next_at(packet, at) {
        Ok(Some((m, next))) => answer(words, wire::fields_of(m), (next - at) as u32),
        Ok(None) => answer(words, no_fields(), 0),
        Err(e) => ids::code_of(e),
    }
}

// Packs the messages that `bytes` are, at the start of `out`. Refused 22, 2, 3, 5, 6.
pub fn sigma_packet_pack(bytes: &[u8], out: &mut [u8]) -> u32
    ensures { (result ≡ written_code (pack_of bytes.now (length out.old))) × (out.new ≡ buffer_after bytes.now out.old) }
{
    match packet::pack(bytes, out) {
        Ok(_) => 0,
        Err(e) => ids::code_of(e),
    }
}
