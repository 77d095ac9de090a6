// Bytes on which a list steps alike: for each byte one that is not above it and on which every edge of the list goes alike. Which two bytes are compared
// is guessed by a key for each byte, a number; no promise rests on the keys.
#![tactic(auto)]

ghost use Rattle.std.specs.Prelude.{◌≡◌, ◌<◌, ◌≤◌, length};
ghost use Rattle.list.specs.List.{records};
ghost use Rattle.list_alike.specs.inner.Alike.{byte_values, alike_at, edges_alike, Alike, Alikes};

// Values of a byte, each with a key and with a byte that steps like it.
pub const BYTE_VALUES: usize = 256;

// Places at which bytes are sought by their keys; a prime, so that every bit of a key counts.
const PLACES: usize = 257;

// The key at a place; 0 where there is none.
fn key_at(keys: &[u64], at: usize) -> u64 {
    keys.get(at).copied().unwrap_or(0)
}

// Adds a number to the key at a place, where there is one; the sum goes round.
fn add_key(keys: &mut [u64], at: usize, x: u64) {
    if let Some(key) = keys.get_mut(at) {
        *key = key.wrapping_add(x);
    }
}

// Takes a number from the key at a place, where there is one; the difference goes round.
fn take_key(keys: &mut [u64], at: usize, x: u64) {
    if let Some(key) = keys.get_mut(at) {
        *key = key.wrapping_sub(x);
    }
}

// Mixes a number into the key at a place, where there is one: keys that were mixed alike stay the same.
pub fn mix_key(keys: &mut [u64], at: usize, x: u64) {
    if let Some(key) = keys.get_mut(at) {
        *key = *key % 4294967296 * 65599 + x % 4294967296;
    }
}

// The weight of the next edge.
fn next_weight(weight: u64) -> u64 {
    (weight % 2147483648 * 1103515245 + 12345) % 2147483648
}

// A weight where a test holds, else 0.
fn weight_if(test: bool, weight: u64) -> u64 {
    if test { weight } else { 0 }
}

// Adds a weight to the key of each letter that is outside the range from low to high and inside it with its case exchanged.
fn add_letters(low: u8, high: u8, weight: u64, keys: &mut [u64]) {
    for c in b'A'..=b'Z' {
        let d = c + 32;
        let capital = (low <= c) & (c <= high);
        let small = (low <= d) & (d <= high);
        add_key(keys, c as usize, weight_if(small & !capital, weight));
        add_key(keys, d as usize, weight_if(capital & !small, weight));
    }
}

// Adds the weight of record i, where it is an edge: to the marks at low and behind high, and for either case to the keys of the letters.
fn mark_edge(list: &[u8], i: usize, weight: u64, marks: &mut [u64], keys: &mut [u64])
    requires { i < records list.now }
{
    if list::is_edge(list, i) {
        let low = list::byte_of(list, i, 1);
        let high = list::byte_of(list, i, 2);
        add_key(marks, low as usize, weight);
        take_key(marks, high as usize + 1, weight);
        if list::byte_of(list, i, 3) == 1 {
            add_letters(low, high, weight, keys);
        }
    }
}

// Adds the weights of the list's edges.
fn mark_edges(list: &[u8], marks: &mut [u64], keys: &mut [u64]) {
    let n = list::records(list);
    let mut weight = 1u64;
    for i in 0..n {
        weight = next_weight(weight);
        mark_edge(list, i, weight, marks, keys);
    }
}

// Adds to each key the marks up to its byte: the weights of the edges that begin there or below, and do not end below.
fn add_marks(marks: &[u64], keys: &mut [u64]) {
    let mut all = 0u64;
    for (key, mark) in keys.iter_mut().zip(marks) {
        all = all.wrapping_add(*mark);
        *key = key.wrapping_add(all);
    }
}

// Adds to each byte's key what tells the list's edges apart: bytes on which every edge goes alike get the same, and others, but for chance, do not.
fn add_edges(list: &[u8], keys: &mut [u64]) {
    let mut marks = [0u64; BYTE_VALUES];
    mark_edges(list, &mut marks, keys);
    add_marks(&marks, keys);
}

// Says whether a byte has the key of byte c.
fn same_key(keys: &[u64], d: u8, c: u8) -> bool {
    key_at(keys, d as usize) == key_at(keys, c as usize)
}

// The place at which a byte with the key of byte c stands, or one at which 0 stands. The places are tried in turn, from the key's own, round the end.
// Bytes, and not options of them: those take twice the room on the stack.
fn place_of(keys: &[u64], places: &[u8], c: u8) -> usize {
    let key = key_at(keys, c as usize);
    for j in 0..PLACES {
        let at = ((key % 257) as usize + j) % PLACES;
        let d = list::byte_at(places, at);
        if d == 0 || same_key(keys, d, c) {
            return at;
        }
    }
    0
}

// Puts byte c at a place, where there is one.
pub fn put_byte(places: &mut [u8], at: usize, c: u8) {
    if let Some(place) = places.get_mut(at) {
        *place = c;
    }
}

// Says whether record i is an edge that both bytes take, or one that neither takes.
fn alike_at(list: &[u8], c: u8, d: u8, i: usize) -> bool
    requires { i < records list.now }
    ensures { result ≡ alike_at list.now c d i }
{
    let one = list::edge(list, c, list::exchanged(c), i);
    let other = list::edge(list, d, list::exchanged(d), i);
    one == other
}

// Says whether every edge of the list goes alike on both bytes.
fn edges_alike(list: &[u8], c: u8, d: u8) -> bool
    ensures { result ≡ edges_alike list.now c d }
{
    let n = list::records(list);
    for i in 0..n {
        if !alike_at(list, c, d, i) {
            return false;
        }
    }
    true
}

// A byte on which the list steps as on c: the one with its key that stands at a place, where every edge goes alike on both, or c.
fn alike_to(list: &[u8], keys: &[u64], places: &mut [u8], c: u8) -> u8
    ensures { Alike list.now result c }
{
    let at = place_of(keys, places, c);
    let d = list::byte_at(places, at);
    if d < c && same_key(keys, d, c) {
        if edges_alike(list, d, c) {
            return d;
        }
        return c;
    }
    put_byte(places, at, c);
    c
}

// Gives each byte one on which the list steps as on it. Bytes of one key, with what is added of the edges, are compared with the lowest of them.
pub fn fill_alikes(list: &[u8], keys: &mut [u64], alikes: &mut [u8])
    requires { byte_values ≤ length alikes.old }
    ensures { Alikes list.now alikes.new }
{
    add_edges(list, keys);
    // A table in an array: the library has no heap.
    let mut places = [0u8; PLACES];
    for c in 0..BYTE_VALUES {
        alikes[c] = alike_to(list, keys, &mut places, c as u8);
    }
}
