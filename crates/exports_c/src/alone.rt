// One id, header, message or packet by itself.
ghost use Rattle.std.specs.Prelude.{◌≡◌, [], ◌∷◌, length};
ghost use Rattle.fields.specs.Id.{id_answer};
ghost use Rattle.message.specs.Reading.{read_of};
ghost use Rattle.packet.specs.Header.{header_of};
ghost use Rattle.packet.specs.Judging.{judge_of};
ghost use Rattle.packet.specs.Writing as heading;
ghost use Rattle.refusals.specs.Refusals.{refusal_in};
ghost use Rattle.single.specs.Given.{given_buffer, given_of};
ghost use Rattle.single.specs.Over.{over};
ghost use Rattle.single.specs.Told.{header_told, number_told, packed};
ghost use Rattle.single.specs.Walks.{places_after, walk_numbers, walk_refusal};
ghost use Rattle.single.specs.Words.{message_told};

// The value of an id; 12 where the id breaks its rule.
#[unsafe(no_mangle)]
pub extern "C" fn jangsebit_value(id: &[u8; 14], told: &mut [u64; 1]) -> u64
    ensures refusal { result ≡ refusal_in (id_answer id.now) }
    ensures told { told.new ≡ number_told (id_answer id.now) told.old }
{
    exports::jangsebit_value(id, told)
}

// Of a packet's header its size, number, flag, count of messages and milliseconds; or the first of 1 to 6.
#[unsafe(no_mangle)]
pub extern "C" fn jangsebit_header(packet: &[u8], told: &mut [u64; 5]) -> u64
    ensures refusal { result ≡ refusal_in (header_of packet.now) }
    ensures told { told.new ≡ header_told (header_of packet.now) told.old }
{
    exports::jangsebit_header(packet, told)
}

// A header into a buffer's first 12 bytes; 14 for a header that no packet has, then 11 where it does not fit.
#[unsafe(no_mangle)]
pub extern "C" fn jangsebit_write_header(
    size: u16,
    seq: u32,
    flag: u8,
    messages: u8,
    milli: u32,
    buf: &mut [u8],
) -> u64
    ensures refusal { result ≡ refusal_in (heading.answer_of (packed size seq flag messages milli) (length buf.old)) }
    ensures buffer { buf.new ≡ heading.buffer_after (packed size seq flag messages milli) buf.old }
{
    exports::jangsebit_write_header(size, seq, flag, messages, milli, buf)
}

// The first of 1 to 8 that applies to a packet. Told is the offset that it rests on.
#[unsafe(no_mangle)]
pub extern "C" fn jangsebit_judge(packet: &[u8], told: &mut [u64; 1]) -> u64
    ensures refusal { result ≡ (judge_of packet.now).test }
    ensures told { told.new ≡ over ((judge_of packet.now).offset ∷ []) told.old }
{
    exports::jangsebit_judge(packet, told)
}

// Where each message of a packet starts and how many bytes it has, two numbers a message; or the first of 1 to 7, or 11
// where the list is too short for all. Told are the offset that one of 1 to 7 rests on, and how many messages there are.
#[unsafe(no_mangle)]
pub extern "C" fn jangsebit_walk(packet: &[u8], places: &mut [u64], told: &mut [u64; 2]) -> u64
    ensures refusal { result ≡ walk_refusal packet.now (length places.old) }
    ensures places { places.new ≡ places_after packet.now places.old }
    ensures told { told.new ≡ over (walk_numbers packet.now) told.old }
{
    exports::jangsebit_walk(packet, places, told)
}

// The message that the bytes are: its type, then its fields in the order of its layout, a text of 14 bytes as its first
// eight, the next four and the last two; of 28 and unlisted types the type alone. Or 7, then 14.
#[unsafe(no_mangle)]
pub extern "C" fn jangsebit_message(bytes: &[u8], told: &mut [u64; 14]) -> u64
    ensures refusal { result ≡ refusal_in (read_of bytes.now) }
    ensures told { told.new ≡ message_told (read_of bytes.now) told.old }
{
    exports::jangsebit_message(bytes, told)
}

// The message of such numbers at a place in a buffer; told is how many bytes it has. 14 where the type is not written, a
// field breaks its rule or a number does not fit in its field, then 11 where the message does not fit in the buffer.
#[unsafe(no_mangle)]
pub extern "C" fn jangsebit_write_message(
    numbers: &[u64; 14],
    buf: &mut [u8],
    at: usize,
    told: &mut [u64; 1],
) -> u64
    ensures refusal { result ≡ refusal_in (given_of numbers.now buf.old at) }
    ensures buffer { buf.new ≡ given_buffer numbers.now buf.old at }
    ensures told { told.new ≡ number_told (given_of numbers.now buf.old at) told.old }
{
    exports::jangsebit_write_message(numbers, buf, at, told)
}
