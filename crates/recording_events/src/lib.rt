// Whether lent bytes are events of a recording, on a board of so many nodes. Any numbers and bytes may be handed.
#![tactic(auto)]

ghost use Rattle.std.specs.Prelude.{◌≡◌};
ghost use Rattle.recording.specs.Test.{good_event, good_events};

// An event has a letter, and numbers of nodes where its letter has them; a second that it does not have is 0.
fn event_good(nodes: u32, letter: u8, first: u8, second: u8) -> bool
    ensures { result ≡ good_event nodes letter first second }
{
    if nodes <= first as u32 {
        return false;
    }
    match letter {
        b's' | b't' | b'd' => (second as u32) < nodes,
        b'i' | b'b' => second == 0,
        _ => false,
    }
}

// Each of the events, four bytes each, is one.
pub fn events_good(nodes: u32, events: &[u8]) -> bool
    ensures { result ≡ good_events nodes events.now }
{
    let n = events.len() / 4;
    for i in 0..n {
        if !event_good(nodes, events[4 * i], events[4 * i + 1], events[4 * i + 2]) {
            return false;
        }
    }
    true
}
