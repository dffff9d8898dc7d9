//! The request in the body of a packet.
ghost use Rattle.std.specs.Prelude.{◌≡◌};
ghost use Rattle.ets_packets.specs.Requests as spec;

use crate::number::number_at;

/// The request in the body of a packet.
#[derive(Clone, Copy)]
pub(crate) enum Request {
    /// Spawns the process with this number.
    Spawn(u32),
    /// Ends the process with this number.
    Exit(u32),
    /// Makes a call for the process with this number. The bytes of the call follow the number in the body.
    Call(u32),
    /// The body is not a request.
    NotARequest,
}

/// The number of bytes in the body before those of a call: the kind and the process number.
pub(crate) const CALL_START: usize = 5;

/// Parses the body of a packet: a byte that says the kind, the process number in four bytes, and for a call its bytes.
pub(crate) fn parse_request(body: &[u8]) -> Request
    ensures { result ≡ spec.parse_request body.now }
{
    if body.len() < CALL_START {
        return Request::NotARequest;
    }
    request_of(body[0], number_at(body, 1), body.len() == CALL_START)
}

/// Returns the request of this kind for this process: 0 is a spawn, 1 an exit, and 2 a call. `is_short` says that
/// nothing follows the process number.
fn request_of(kind: u8, pid: u32, is_short: bool) -> Request
    ensures { result ≡ spec.request_of kind pid is_short }
{
    match kind {
        0 if is_short => Request::Spawn(pid),
        1 if is_short => Request::Exit(pid),
        2 => Request::Call(pid),
        _ => Request::NotARequest,
    }
}
