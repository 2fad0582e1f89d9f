// The test behind refusal 18: whether a recording is refused. Any numbers and bytes may be handed.
#![tactic(auto)]

ghost use Rattle.std.specs.Prelude.{◌≡◌};
ghost use Rattle.recording.specs.Test.{is_bad_by};

// A recording is refused, by its node count, its number of sections, how many events they are to have in all, and the
// events' bytes.
pub fn is_bad(nodes: u32, sections: usize, total: u64, events: &[u8]) -> bool
    ensures { result ≡ is_bad_by nodes sections total events.now }
{
    if nodes == 0 {
        return true;
    }
    if 16 < nodes {
        return true;
    }
    if sections == 0 {
        return true;
    }
    if 32 < sections {
        return true;
    }
    if events.len() % 4 != 0 {
        return true;
    }
    if (events.len() / 4) as u64 != total {
        return true;
    }
    if 60000 - (2 + 4 * sections) < events.len() {
        return true;
    }
    !recording_events::events_good(nodes, events)
}
