// A replay with headers of its own. The bytes of the items under way are lent by the caller.
#![tactic(auto)]

ghost use Rattle.std.specs.Prelude.{◌≡◌};
ghost use Rattle.rehearsal_headers.specs.Headers.{no_items};
ghost use Rattle.replays.specs.Replay.{replay, replay_answer};

use items::Item;
use replay_ends::Replayed;

// Plays a recording again with headers of its own, 512 places for them. Refuses 18, 19.
pub fn replay_own(bytes: &mut [u8], recording: &[u8]) -> Replayed
    ensures answer { result ≡ replay_answer recording.now no_items bytes.old }
    ensures frames { bytes.new ≡ (replay recording.now no_items bytes.old).bytes }
{
    let mut items = [Item {
        from: 0,
        to: 0,
        kind: 0,
        phase: 0,
    }; 512];
    replays::play_again(&mut items, bytes, recording)
}
