// How the headers of the items under way change, in the list that the caller lends. Any number may be handed for a place
// and for how many items there are.
#![tactic(auto)]

ghost use Rattle.std.specs.Prelude.{◌≡◌, ◌-◌, leb, set};
ghost use Rattle.base.specs.Choice.{choose};
ghost use Rattle.item_changes.specs.Places.{removed_within};

use items::Item;

// Puts a header at a place, the one after the last; nowhere where there is no such place.
pub fn append_item(items: &mut [Item], at: usize, it: Item)
    ensures { items.new ≡ set items.old at it }
{
    if at < items.len() {
        items[at] = it;
    }
}

// Where the last of n items stands, of so many places; 0 where these are too few.
fn last_of(n: usize, places: usize) -> usize
    ensures { result ≡ choose (leb n places) (n - 1) 0 }
{
    if places < n { 0 } else { n.saturating_sub(1) }
}

// Of n items the one at a place goes, and each after it moves one place down. Nothing moves where there is no such
// item, or where fewer than n places are lent.
pub fn remove_item(items: &mut [Item], n: usize, at: usize)
    ensures { items.new ≡ removed_within items.old n at }
{
    for i in at..last_of(n, items.len()) {
        items[i] = items[i + 1];
    }
}
