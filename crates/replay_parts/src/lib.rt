// The events of a recording, as the player of recordings takes them. Any bytes and numbers may be handed.
#![tactic(auto)]

ghost use Rattle.std.specs.Prelude.{◌≡◌, ◌+◌, ◌*◌, get_or};
ghost use Rattle.recording.specs.Recording.{recording_in};
ghost use Rattle.replay_parts.specs.Events.{line_by, line_of, limit_of};

use base::Kind;
use line_forms::Line;
use replay_ends::byte_at;

// Where an event of a recording stands.
fn place_of(bytes: &[u8], i: u32) -> usize
    ensures { result ≡ 2 + 4 * get_or bytes.now 1 0 + 4 * i }
{
    2 + 4 * byte_at(bytes, 1) as usize + 4 * i as usize
}

// The line of a script that says what an event says.
fn line_by(letter: u8, first: u32, second: u32) -> Line
    ensures { result ≡ line_by letter first second }
{
    match letter {
        b's' => Line::Sends(Kind::Job, first, second),
        b't' => Line::Sends(Kind::Note, first, second),
        b'd' => Line::Delivers(first, second),
        b'i' => Line::Idles(first),
        b'b' => Line::Calls(first),
        _ => Line::Bad,
    }
}

// Event i of a recording, as a line.
pub fn line_of(recording: &[u8], i: u32) -> Line
    ensures { result ≡ line_of (recording_in recording.now) i }
{
    let at = place_of(recording, i);
    let first = byte_at(recording, at + 1);
    let second = byte_at(recording, at + 2);
    line_by(byte_at(recording, at), first as u32, second as u32)
}

// How many events are to be played once event i has been answered: as many as before, or no more.
pub fn limit_of(recording: &[u8], i: u32, answer: u32, most: u32) -> u32
    ensures { result ≡ limit_of (recording_in recording.now) i answer most }
{
    let recorded = byte_at(recording, place_of(recording, i) + 3);
    if answer == recorded as u32 {
        return most;
    }
    i
}
