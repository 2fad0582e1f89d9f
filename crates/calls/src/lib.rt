// The calls in place on the words that the caller lends, each with words of its own for the sums. Words that hold no state
// are refused.
#![tactic(auto)]

ghost use Rattle.std.specs.Prelude.{◌≡◌, length};
ghost use Rattle.base.specs.Limits.{limits_of};
ghost use Rattle.node.specs.Answers.{outcome_of, barrier_of};
ghost use Rattle.node.specs.Calls.{frame_in};
ghost use Rattle.on_words.specs.OnWords.{answer_on, words_on, barrier_on, barrier_state, barrier_buffer};

use base::{Bounds, Refusal};
pub use message_calls::{go_idle, send_to, take_from};
use node::{Accepted, Step};

// A frame has come. Refuses 13, 9, 10, 2, 3, 11, 7, 8.
pub fn frame_in(b: Bounds, state: &mut [u32], bytes: &[u8]) -> Result<Accepted, Refusal>
    ensures answer { outcome_of result
        ≡ answer_on (limits_of b) (λ n. frame_in (limits_of b) n bytes.now) state.old }
    ensures memory { state.new
        ≡ words_on (limits_of b) (λ n. frame_in (limits_of b) n bytes.now) state.old }
{
    let mut sums = [0u32; message_calls::SUMS];
    node_frames::frame_in(b, state, &mut sums, bytes)
}

// One step of an idle node: sends its frame, moves on, leaves or waits. Refuses 13, 12, 14.
pub fn step(b: Bounds, state: &mut [u32], buf: &mut [u8]) -> Result<Step, Refusal>
    ensures answer { barrier_of result ≡ barrier_on (limits_of b) state.old (length buf.old) }
    ensures memory { state.new ≡ barrier_state (limits_of b) state.old (length buf.old) }
    ensures buffer { buf.new ≡ barrier_buffer (limits_of b) state.old buf.old }
{
    let mut sums = [0u32; message_calls::SUMS];
    node_barrier::step(b, state, &mut sums, buf)
}
