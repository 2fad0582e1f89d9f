// A board of up to 16 nodes, played from a script. The headers and the bytes of the items under way, and what is
// printed, are lent by the caller.
#![tactic(auto)]

ghost use Rattle.std.specs.Prelude.{◌≡◌};
ghost use Rattle.printing.specs.Put.{put, ends};
ghost use Rattle.rehearsal.specs.Play.{play};

use items::Item;

// Plays a script from its first line to its end or to the line that stops it, and answers how much is printed.
pub fn play_script(items: &mut [Item], bytes: &mut [u8], out: &mut [u8], script: &[u8]) -> usize
    ensures headers { items.new ≡ (play script.now items.old bytes.old).items }
    ensures frames { bytes.new ≡ (play script.now items.old bytes.old).bytes }
    ensures printed { out.new
        ≡ put out.old 0 (play script.now items.old bytes.old).text }
    ensures count { result ≡ ends out.old 0 (play script.now items.old bytes.old).text }
{
    let o = opening::open_script(script);
    let mut printed = opening_parts::put_opening(out, o.why, o.line);
    let mut st = o.stage;
    let mut at = o.at;
    let mut count: u32 = 2;
    while at < script.len() {
        let told = lines::next_line(script, at, st.size);
        let r = line_step::step(items, bytes, st, told.line);
        printed = lines::put_line(out, printed, told.line, r, count);
        st = r.stage;
        at = told.next;
        count += 1;
    }
    printed
}
