//! Answers packets, from the first to the last.
ghost use Rattle.std.specs.Prelude.{◌≡◌, ℕ, ◌+◌, ◌<◌, ◌≤◌, ◌-◌, ◌^◌, [], ◌∷◌, ◌++◌, List, length, IfErr, IfOk, OnOk, OnErr};
ghost use Rattle.node_text.specs.Calls.{new_store};
ghost use Rattle.node_text.specs.StoreState.{StoreState};
ghost use Rattle.ets_packets.specs.Packets.{big4, packet};
ghost use Rattle.ets_packets.specs.Stops.{Completes, Stops};
ghost use Rattle.ets_packets.specs.Traffic.{flow, traffic};
ghost use Rattle.ets_packets.specs.inside.Answering.{AnswersAllPackets, AnswersPacket, AnswersPackets, BreaksPacket, BreaksPackets, EndsAfter, IsSkipped};
ghost use Rattle.ets_packets.specs.Output.{Adds, Fails, HasWriterOf, buffered_bytes, writer_flow};

use crate::buffer::Buffer;
use crate::fault::PacketFault;
use crate::front::{Front, first_packet};
use crate::number::bytes_of;
use crate::output::{Output, WriteFault, output_buffer};
use crate::reply::{SYNTAX, answer};
use crate::settings::PacketSettings;
use node_text::Store;
use std::alloc::Global;
use std::io::{Read, Write};

/// The memory of a reply is kept for the next reply if it has at most this many bytes.
const MAX_KEPT: usize = 65_536;

/// A store that answers packets, and the memory of its replies.
#[derive(Drop)]
struct Responder {
    alloc: Global,
    store: Store,
    /// The body of a reply after its status byte. Its memory is kept for the next reply.
    payload: Vec<u8>,
}

/// Makes a store with these settings, and answers each packet of the input by it, until the input ends. Before each
/// read and at the end, all replies so far are written.
pub fn run_packets<R: Read, W: Write>(
    alloc: Global,
    input: &mut R,
    output: &mut W,
    settings: PacketSettings,
) -> Result<(), PacketFault>
    ensures ok { OnOk result (Completes settings.max_packet (new_store settings.limits)
        (traffic (flow R.remaining input.old input.new) (flow W.contents output.old output.new))) }
    ensures err { IfErr result (Stops settings.max_packet (new_store settings.limits)
        (traffic (flow R.remaining input.old input.new) (flow W.contents output.old output.new))) }
{
    let mut buffer = Buffer::new(alloc)?;
    let mut bytes = output_buffer(alloc)?;
    let mut output = Output::new(&mut bytes, output);
    let mut responder = Responder {
        alloc,
        store: store_of(alloc, &settings),
        payload: Vec::new(alloc),
    };
    answer_all(
        input,
        &mut output,
        &mut buffer,
        &mut responder,
        settings.max_packet,
    )?;
    Ok(())
}

/// Makes a store with these settings.
fn store_of(alloc: Global, settings: &PacketSettings) -> Store
    ensures { result ≡ new_store settings.now.limits }
{
    match settings.seed {
        Some(seed) => Store::with_seed(alloc, settings.limits, seed),
        None => Store::new(alloc, settings.limits),
    }
}

/// Answers all packets of the input, and writes all replies. A body of over `most` bytes is skipped and refused.
fn answer_all<R: Read, W: Write>(
    reader: &mut R,
    output: &mut Output<'_, W>,
    buffer: &mut Buffer,
    responder: &mut Responder,
    most: u32,
) -> Result<(), PacketFault>
    requires waiting { buffered_bytes output.old ≡ [] }
    requires buffer { buffer.old ≡ [] }
    ensures same_writer { HasWriterOf output.old output.new }
    ensures ok { OnOk result (Completes most responder.old.store
        (traffic (flow R.remaining reader.old reader.new) (writer_flow W.contents output.old output.new))) }
    ensures err { IfErr result (Stops most responder.old.store
        (traffic (flow R.remaining reader.old reader.new) (writer_flow W.contents output.old output.new))) }
{
    // The number of bytes that are still to be skipped.
    let mut left = 0;
    for _read in 0..u64::MAX {
        if buffer.refill(reader)? == 0 {
            return end_after(left, buffer.bytes());
        }
        left = answer_buffered(output, buffer, responder, most, left)?;
        output.flush()?;
    }
    // The input has not ended after 2^64 - 1 reads.
    Err(PacketFault::Read)
}

/// Returns the result of a run whose input ends after this part of a packet, with `left` bytes still to be skipped: a
/// fault, unless both are empty.
fn end_after(left: usize, part: &[u8]) -> Result<(), PacketFault>
    ensures { EndsAfter left part.now result }
{
    if left == 0 && part.is_empty() {
        Ok(())
    } else {
        Err(PacketFault::Truncated)
    }
}

/// Answers the whole packets that are buffered, of which the first `left` bytes are to be skipped. Returns how many
/// bytes are to be skipped then.
fn answer_buffered<W: Write>(
    output: &mut Output<'_, W>,
    buffer: &mut Buffer,
    responder: &mut Responder,
    most: u32,
    left: usize,
) -> Result<usize, WriteFault>
    ensures same_writer { HasWriterOf output.old output.new }
    ensures ok { IfOk result (λ more. (part : List ℕ) → IsSkipped most part left →
        AnswersAllPackets most (writer_flow W.contents output.old output.new)
        (buffered_bytes output.old) (buffered_bytes output.new) (part ++ buffer.old) buffer.new more
        responder.old.store responder.new.store) }
    ensures err { OnErr result ((part : List ℕ) → IsSkipped most part left →
        BreaksPackets most (writer_flow W.contents output.old output.new)
        (buffered_bytes output.old) (part ++ buffer.old) responder.old.store) }
{
    let mut left = skip_body(output, buffer, left)?;
    while left == 0 {
        match first_packet(buffer.bytes(), most) {
            Front::Packet(len) => {
                // The first four bytes are the length of the body.
                answer_packet(&buffer.bytes()[4..len + 4], output, responder)?;
                buffer.consume(len + 4);
            }
            Front::TooLong(len) => {
                buffer.consume(4);
                left = skip_body(output, buffer, len)?;
            }
            Front::Incomplete => return Ok(0),
        }
    }
    Ok(left)
}

/// Skips the last `left` bytes of a body that is too long, as far as they are buffered. Adds the refusal of its packet
/// after its last byte. Returns how many bytes are still to be skipped.
fn skip_body<W: Write>(
    output: &mut Output<'_, W>,
    buffer: &mut Buffer,
    left: usize,
) -> Result<usize, WriteFault>
    ensures same_writer { HasWriterOf output.old output.new }
    ensures ok { IfOk result (λ more. (most : ℕ) (part : List ℕ) (s : StoreState) → IsSkipped most part left →
        AnswersPackets most (writer_flow W.contents output.old output.new)
        (buffered_bytes output.old) (buffered_bytes output.new) (part ++ buffer.old) buffer.new more s s) }
    ensures all { IfOk result (λ more. 0 < more → buffer.new ≡ []) }
    ensures fewer { length buffer.new ≤ length buffer.old }
    ensures err { OnErr result ((most : ℕ) (part : List ℕ) (s : StoreState) → IsSkipped most part left →
        BreaksPackets most (writer_flow W.contents output.old output.new)
        (buffered_bytes output.old) (part ++ buffer.old) s) }
{
    if left == 0 {
        return Ok(0);
    }
    let len = buffer.bytes().len();
    if len < left {
        buffer.consume(len);
        return Ok(left - len);
    }
    buffer.consume(left);
    add_reply(SYNTAX, b"the packet is too long", output)?;
    Ok(0)
}

/// Answers the body of a packet, and adds the packet of the reply to the output.
fn answer_packet<W: Write>(
    body: &[u8],
    output: &mut Output<'_, W>,
    responder: &mut Responder,
) -> Result<(), WriteFault>
    ensures same_writer { HasWriterOf output.old output.new }
    ensures ok { OnOk result (AnswersPacket (writer_flow W.contents output.old output.new)
        (buffered_bytes output.old) (buffered_bytes output.new) body.now responder.old.store responder.new.store) }
    ensures err { OnErr result (BreaksPacket (writer_flow W.contents output.old output.new)
        (buffered_bytes output.old) body.now responder.old.store responder.new.store) }
{
    clear(responder.alloc, &mut responder.payload);
    let status = answer(
        responder.alloc,
        &mut responder.store,
        body,
        &mut responder.payload,
    );
    add_reply(status, &responder.payload, output)
}

/// Removes all bytes, and frees the memory if it is more than `MAX_KEPT`.
fn clear(alloc: Global, bytes: &mut Vec<u8>)
    ensures { bytes.new.items ≡ [] }
{
    if bytes.capacity() > MAX_KEPT {
        *bytes = Vec::new(alloc);
    }
    bytes.clear();
}

/// Adds the packet of a reply with this status and this payload to the output.
fn add_reply<W: Write>(
    status: u8,
    payload: &[u8],
    output: &mut Output<'_, W>,
) -> Result<(), WriteFault>
    requires { length payload.now < 2 ^ 32 - 1 }
    ensures same_writer { HasWriterOf output.old output.new }
    ensures ok { OnOk result (Adds W.contents output.old output.new (packet (status ∷ payload.now))) }
    ensures err { OnErr result (Fails W.contents output.old output.new (packet (status ∷ payload.now))) }
{
    output.add(&reply_prefix(status, payload))?;
    output.add(payload)
}

/// Returns the first five bytes of a reply: the length of its body, big-endian, and the status. The body is the status
/// byte and the payload.
fn reply_prefix(status: u8, payload: &[u8]) -> [u8; 5]
    requires { length payload.now < 2 ^ 32 - 1 }
    ensures { result ≡ big4 (length (status ∷ payload.now)) ++ status ∷ [] }
{
    let len = bytes_of(payload.len() as u32 + 1);
    [len[0], len[1], len[2], len[3], status]
}
