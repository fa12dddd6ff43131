// An entry of a list that is lent, changed where there is one.
ghost use Rattle.std.specs.Prelude.{◌≡◌, set};

// Stores the entry at the index; past the end nothing changes.
pub fn store<T: Copy>(items: &mut [T], i: usize, item: T)
    ensures { items.new ≡ set items.old i item }
{
    if i < items.len() {
        items[i] = item;
    }
}
