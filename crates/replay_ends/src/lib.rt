// How a replay starts and how it ends; and a byte of a recording. Any bytes and numbers may be handed.
#![tactic(auto)]

ghost use Rattle.std.specs.Prelude.{◌≡◌};
ghost use Rattle.replay_ends.specs.Ends.{start_of, end_of};

use board_states::Stage;
pub use recording_test::byte_at;

// How a replay starts: the board, how many events are to be played, and why it is refused (0 where it is not).
#[derive(Clone, Copy)]
pub struct Start {
    pub stage: Stage,
    pub events: u32,
    pub why: u32,
}

// How a replay ends: 0 with the number of events, 18, or 19 with the position of the first event whose answer differs.
#[derive(Clone, Copy)]
pub struct Replayed {
    pub why: u32,
    pub at: u32,
}

// How a replay starts.
pub fn start_of(recording: &[u8]) -> Start
    ensures { result ≡ start_of recording.now }
{
    if !recording_test::is_recording(recording) {
        return Start {
            stage: opening_parts::open_stage(0),
            events: 0,
            why: 18,
        };
    }
    let head = 2 + 4 * recording_test::sections_of(recording);
    let nodes = byte_at(recording, 0);
    Start {
        stage: opening_parts::open_stage(nodes as u32),
        events: ((recording.len() - head) / 4) as u32,
        why: 0,
    }
}

// How a replay ends.
pub fn end_of(why: u32, events: u32, same: u32) -> Replayed
    ensures { result ≡ end_of why events same }
{
    if why != 0 {
        return Replayed { why: why, at: 0 };
    }
    if same < events {
        return Replayed { why: 19, at: same };
    }
    Replayed { why: 0, at: same }
}
