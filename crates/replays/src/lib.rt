// A recording played again on a fresh board of up to 16 nodes. The headers and the bytes of the items under way are lent
// by the caller.
#![tactic(auto)]

ghost use Rattle.std.specs.Prelude.{◌≡◌};
ghost use Rattle.replays.specs.Replay.{replay, replay_answer};

use items::Item;
use replay_ends::Replayed;

// Plays the events of all sections in their order until an answer differs from the recorded one. Refuses 18, and then
// nothing is played; 19 with the position.
pub fn play_again(items: &mut [Item], bytes: &mut [u8], recording: &[u8]) -> Replayed
    ensures answer { result ≡ replay_answer recording.now items.old bytes.old }
    ensures headers { items.new ≡ (replay recording.now items.old bytes.old).items }
    ensures frames { bytes.new ≡ (replay recording.now items.old bytes.old).bytes }
{
    let o = replay_ends::start_of(recording);
    let mut st = o.stage;
    let mut most = o.events;
    let mut i: u32 = 0;
    while i < most {
        let line = replay_parts::line_of(recording, i);
        let r = line_step::step(items, bytes, st, line);
        most = replay_parts::limit_of(recording, i, r.answer, most);
        st = r.stage;
        i += 1;
    }
    replay_ends::end_of(o.why, o.events, most)
}
