// Whether lent bytes are a recording. Any bytes may be handed.
#![tactic(auto)]

ghost use Rattle.std.specs.Prelude.{◌≡◌, not, ◌≤◌, ◌<◌, get_or};
ghost use Rattle.base.specs.Choice.{list};
ghost use Rattle.recording.specs.Recording.{number_at, bodies, sections_in, count_at};
ghost use Rattle.recording.specs.Test.{sum, placed, is_bad_in};

// The byte at a place; 0 where there is no such place.
pub fn byte_at(bytes: &[u8], at: usize) -> u8
    ensures { result ≡ get_or bytes.now at 0 }
{
    bytes.get(at).copied().unwrap_or(0)
}

// The number of the two bytes from a place on, the low one first; a byte past the end counts as 0.
pub fn number_at(bytes: &[u8], at: usize) -> u32
    ensures { (result ≡ number_at bytes.now at) × (result < 65536) }
{
    let low = byte_at(bytes, at) as u32;
    let high = byte_at(bytes, at.saturating_add(1)) as u32;
    low + 256 * high
}

// How many sections the bytes are to have.
pub fn sections_of(bytes: &[u8]) -> usize
    ensures { (result ≡ sections_in bytes.now) × (result < 256) }
{
    byte_at(bytes, 1) as usize
}

// The bodies of so many sections stand one after the other behind the table.
fn is_placed(bytes: &[u8], sections: usize) -> bool
    requires { sections ≤ 32 }
    ensures { result ≡ placed bytes.now (bodies sections) 0 sections }
{
    let mut at: u32 = 2 + 4 * sections as u32;
    for i in 0..sections {
        if number_at(bytes, 2 + 4 * i) != at {
            return false;
        }
        at += 4 * number_at(bytes, 4 + 4 * i);
    }
    true
}

// How many events so many sections have in all.
fn total_of(bytes: &[u8], sections: usize) -> u64
    requires { sections ≤ 32 }
    ensures { result ≡ sum (list 0 sections (count_at bytes.now)) }
{
    let mut total: u64 = 0;
    for i in 0..sections {
        total += number_at(bytes, 4 + 4 * i) as u64;
    }
    total
}

// Whether bytes are a recording.
pub fn is_recording(bytes: &[u8]) -> bool
    ensures { result ≡ not (is_bad_in bytes.now) }
{
    if bytes.len() < 2 {
        return false;
    }
    let sections = sections_of(bytes);
    let head = 2 + 4 * sections;
    if bytes.len() < head {
        return false;
    }
    if 32 < sections {
        return false;
    }
    if !is_placed(bytes, sections) {
        return false;
    }
    let total = total_of(bytes, sections);
    !recording_bad::is_bad(byte_at(bytes, 0) as u32, sections, total, &bytes[head..])
}
