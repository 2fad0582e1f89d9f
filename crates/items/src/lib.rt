// The headers of the items under way, a list that the caller lends, oldest first, and how they are read. Any number may
// be handed for a place and for how many items there are.
#![tactic(auto)]

ghost use Rattle.std.specs.Prelude.{◌≡◌, get_or};
ghost use Rattle.items.specs.Places.{mark, no_item, on_link, oldest_within};

use base::Kind;

// The header of an item under way.
#[derive(Clone, Copy)]
pub struct Item {
    pub from: u8,
    pub to: u8,
    // 0 a job, 1 a frame, 2 a note
    pub kind: u8,
    // the sender's phase byte
    pub phase: u8,
}

// The number by which a header tells that its item is a job or a note.
pub fn mark_of(kind: Kind) -> u8
    ensures { result ≡ mark kind }
{
    match kind {
        Kind::Job => 0,
        Kind::Note => 2,
    }
}

// The header at a place; all zeros where there is no such place.
pub fn item_at(items: &[Item], at: usize) -> Item
    ensures { result ≡ get_or items.now at no_item }
{
    items.get(at).copied().unwrap_or(Item {
        from: 0,
        to: 0,
        kind: 0,
        phase: 0,
    })
}

fn is_on(it: Item, from: u8, to: u8) -> bool
    ensures { result ≡ on_link it from to }
{
    it.from == from && it.to == to
}

// Where the oldest of n items on the link from `from` to `to` stands: n where there is none. Where fewer than n places
// are lent, there are as many items as places.
pub fn oldest_at(items: &[Item], n: usize, from: u8, to: u8) -> usize
    ensures { result ≡ oldest_within items.now n from to }
{
    let most = n.min(items.len());
    items[..most]
        .iter()
        .position(|it| is_on(*it, from, to))
        .unwrap_or(most)
}
