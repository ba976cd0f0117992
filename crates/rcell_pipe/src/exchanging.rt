//! Reads a request from the input and writes its response to the output.

ghost use Rattle.std.specs.Prelude.{◌≡◌};
ghost use Rattle.rcell_pipe.specs.Exchanges.{IsExchangeSuccessful, IsEndOfExchange};

use cell_core::sink::Sink;
use cell_core::source::{Asked, ReadSource};
use rcell_plan_response::responding::respond;
use std::alloc::Global;
use std::io::Read;

/// How an exchange ended: the exit status, and the input with the bytes read from it.
#[derive(Drop)]
pub struct ExchangeResult<R> {
    /// 0 if the request was accepted, 1 if it or its script was rejected, 3 if memory ran out, 4 if a read or a write failed.
    pub status: u8,
    /// The input after the last read.
    pub input: ReadSource<R>,
}

/// Reads a request from `input`, and writes its response to `out`.
pub fn exchange<R: Read + Drop, W: Sink>(
    alloc: Global,
    input: ReadSource<R>,
    out: &mut W,
) -> ExchangeResult<R>
    // For any bytes that the reads return: if the exit status is 0, the input has ended, and the writes have accepted
    // exactly the response that the specification defines for these bytes.
    ensures done { input.1 ≡ Asked.Going → result.status ≡ 0
        → IsExchangeSuccessful input.0.1 result.input.0.1 result.input.1
        (W.taken out.old) (W.faults out.old) (W.taken out.new) (W.faults out.new) }
    // How the exchange ends, for any exit status.
    ensures ends { input.1 ≡ Asked.Going
        → IsEndOfExchange input.0.1 result.input.0.1 result.input.1
        (W.taken out.old) (W.faults out.old) (W.taken out.new) (W.faults out.new) result.status }
{
    let responded = respond(alloc, input, out);
    ExchangeResult {
        status: responded.outcome.status,
        input: responded.source,
    }
}
