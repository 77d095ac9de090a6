// The index by places: what its bytes are, whether the lists of a feed fit together, and the split of a frontier.
#![tactic(auto)]

ghost use Rattle.std.specs.Prelude.{◌≡◌, ◌≤◌, ◌<◌};
ghost use Rattle.sets.specs.Set.{set_of};
ghost use Rattle.table.specs.Table.{most_splits, split_count};
ghost use Rattle.index.specs.Entry.{entry_place, telling, known_in, wrong_index, bad_index};
ghost use Rattle.index.specs.Stand.{found_of};

use sets::StateSet;
use std::cmp::Ordering;

// The places of the signatures, of the cost and of the flag in an entry, and the bytes of an entry.
pub const SIGS_PLACE: usize = 4 * table::BYTE_VALUES;

pub const COST_PLACE: usize = SIGS_PLACE + sets::SIG_BYTES;

pub const FLAG_PLACE: usize = COST_PLACE + 1;

pub const ENTRY_SIZE: usize = COST_PLACE + sets::SIG_BYTES;

// A place has a whole entry where one byte and so many more stand from it on.
pub const REST: usize = ENTRY_SIZE - 1;

// A word from here on tells.
pub const TELLING: usize = 2147483648;

// The place of the entry of split i, where that is one and no word that tells; so many bytes has the index of i splits.
pub fn entry_place(i: usize) -> usize
    requires { entry_place i < telling }
    ensures { result ≡ entry_place i }
{
    sets::BYTES + ENTRY_SIZE * i
}

// Says whether the index has another length than that of an entry for each split, where the splits are not too many.
pub fn wrong_index(splits: &[u8], index: &[u8]) -> bool
    requires { split_count splits.now ≤ most_splits }
    ensures { result ≡ wrong_index splits.now index.now }
{
    index.len() != entry_place(table::split_count(splits))
}

// Says whether rule 8 refuses the lists of a feed.
pub fn bad_index(splits: &[u8], index: &[u8]) -> bool
    ensures { result ≡ bad_index splits.now index.now }
{
    if table::bad_count(table::SPLIT_SIZE, table::MOST_SPLITS, splits) {
        return true;
    }
    wrong_index(splits, index)
}

// Says whether the index has all states of f among those that the list names, or is too short to have any.
pub fn known(index: &[u8], f: StateSet) -> bool
    ensures { result ≡ known_in index.now (set_of f) }
{
    if index.len() < sets::BYTES {
        return true;
    }
    let named = StateSet::from_bytes(index, 0);
    named.covers(f)
}

// The split whose set is f, sought by halving: by hand, since the definition is this search, on splits in any order.
pub fn find(splits: &[u8], f: StateSet) -> Option<usize>
    ensures { result ≡ found_of splits.now (set_of f) }
{
    let mut lo = 0;
    let mut hi = table::split_count(splits);
    while lo < hi {
        let mid = (lo + hi) / 2;
        match f.compare_whole(splits, table::SPLIT_SIZE * mid) {
            Ordering::Equal => return Some(mid),
            Ordering::Less => lo = mid + 1,
            Ordering::Greater => hi = mid,
        }
    }
    None
}
