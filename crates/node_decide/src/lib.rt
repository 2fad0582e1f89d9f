// The turn of an idle node in a barrier call: it sends the frame that is due, or looks.
#![tactic(auto)]

ghost use Rattle.std.specs.Prelude.{◌≡◌, length};
ghost use Rattle.node_decide.specs.Decides.{decide_turn, decide_lent};

use base::Refusal;
use frame::{Sent, Taken};
use node::Receivers;
use node_turn::Turn;

// The turn of an idle node on a board of p dimensions, with those to whom a frame is due, and what a scan says of its words. A
// frame that it sends is in the buffer. Refuses 14.
pub fn decide(
    s: &[u32],
    sums: &[u32],
    p: u8,
    whom: Option<Receivers>,
    issued: Sent,
    clause: u32,
    received: Taken,
    buf: &mut [u8],
) -> Result<Turn, Refusal>
    ensures turn { result
        ≡ decide_turn s.now sums.now p whom issued.0 clause received.0
        (length buf.old) }
    ensures memory { buf.new ≡ decide_lent s.now sums.now p whom issued.0 buf.old }
{
    let Some(to) = whom else {
        return Ok(node_look::look(s, p, clause, received));
    };
    let length = due_bytes::put(s, sums, p, issued, &mut *buf).ok_or(Refusal::Buffer)?;
    Ok(Turn::Sends(to, length))
}
