// Packets.

ghost use Rattle.std.specs.Prelude.{◌≡◌, length};
ghost use Rattle.packet.specs.Reading.{next_of};
ghost use Rattle.packet.specs.Packing.{pack_of, buffer_after};
ghost use Rattle.capi.specs.Calls.{written_code};
ghost use Rattle.capi_packet.specs.Calls.{next_code, next_words};

// Reads the message at place `at` of a packet, which is judged whole first: its five words and its bytes, six words in all, which are
// 0 where the packet ends. The first message stands at 2. Refused 22, 2, 3, 5, 22, 6.
#[unsafe(no_mangle)]
pub extern "C" fn sigma_packet_next(packet: &[u8], at: usize, words: &mut [u32]) -> u32
    ensures { (result ≡ next_code (next_of packet.now at) (length words.old)) × (words.new ≡ next_words (next_of packet.now at) at words.old) }
{
    capi_packet::sigma_packet_next(packet, at, words)
}

// Packs the messages that `bytes` are, at the start of `out`. Refused 22, 2, 3, 5, 6.
#[unsafe(no_mangle)]
pub extern "C" fn sigma_packet_pack(bytes: &[u8], out: &mut [u8]) -> u32
    ensures { (result ≡ written_code (pack_of bytes.now (length out.old))) × (out.new ≡ buffer_after bytes.now out.old) }
{
    capi_packet::sigma_packet_pack(bytes, out)
}
