// A rehearsal with headers of its own. The bytes of the items under way, and what is printed, are lent by the caller.
#![tactic(auto)]

ghost use Rattle.std.specs.Prelude.{◌≡◌};
ghost use Rattle.printing.specs.Put.{put, ends};
ghost use Rattle.rehearsal.specs.Play.{play};
ghost use Rattle.rehearsal_headers.specs.Headers.{no_items};

use items::Item;

// Plays a script with headers of its own, 512 places for them.
pub fn rehearse(bytes: &mut [u8], out: &mut [u8], script: &[u8]) -> usize
    ensures frames { bytes.new ≡ (play script.now no_items bytes.old).bytes }
    ensures printed { out.new ≡ put out.old 0 (play script.now no_items bytes.old).text }
    ensures count { result ≡ ends out.old 0 (play script.now no_items bytes.old).text }
{
    let mut items = [Item {
        from: 0,
        to: 0,
        kind: 0,
        phase: 0,
    }; 512];
    rehearsal::play_script(&mut items, bytes, out, script)
}
