// Parts: the index of the live orders, by which one is found with no scan; and that of the insides
// held, which are found by the two numbers of a symbol.
//
// Cells 0 to 255 are the places, cell 256 + b is the head of chain b, and a key is on chain
// key % 509 (specs/Chains.antt). A cell holds 1 more than the next place of its chain, or 0 at the
// end. Along a chain the places fall, so every walk ends. An inside's key is its symbol's first
// eight bytes (specs/Pairs.antt).
//
// An index and the keys beside it are parts of the room of numbers that a host lends: slices, whose
// lengths the contracts' rules give.
#![tactic(auto)]

ghost use Rattle.std.specs.Prelude.{◌≡◌, List, [], ◌∷◌, ◌++◌, ℕ, ◌+◌, ◌<◌, length, get_or, set};
ghost use Rattle.book_index.specs.Chains.{chain_of, index_by, index_of, place_of, Indexed, IsLast};
ghost use Rattle.book_index.specs.Changes.{without, Open, Leaving, On, Last, Off, Behind};
ghost use Rattle.book_index.specs.Pairs.{Paired, IsPair};

// The places of an index, its chains, and its cells: a follower for each place, and the head of each chain. An index of
// insides uses fewer places.
pub const PLACES: usize = 256;

pub const CHAINS: u64 = 509;

pub const CELLS: usize = PLACES + (CHAINS as usize);

pub const PAIRS: usize = 64;

// The walks below go from cell to cell, over no sequence that an iterator has: `next` is their step.
// The cell of the head of a key's chain.
fn head(key: u64) -> usize
    ensures { (result ≡ 256 + chain_of key) × (result < 765) }
{
    PLACES + (key % CHAINS) as usize
}

// The place that a cell names, the next one of its chain.
fn next(index: &[u64], cell: usize) -> Option<usize>
    requires { cell < length index.now }
    ensures { result ≡ place_of (get_or index.now cell 0) }
{
    match index[cell] as usize {
        0 => None,
        at => Some(at - 1),
    }
}

// The place of a live key.
pub fn find<'a>(index: &'a [u64], keys: &'a [u64], live: usize, key: u64) -> Option<usize>
    requires { Indexed index.now keys.now live }
    ensures { IsLast key keys.now live result }
{
    let mut cell = head(key);
    while let Some(place) = next(index, cell) {
        if keys[place] == key {
            return Some(place);
        }
        cell = place;
    }
    None
}

// The place of a symbol's inside. Symbols that begin alike are on one chain, so both numbers are compared.
pub fn pair<'a>(
    index: &'a [u64],
    fronts: &'a [u64],
    backs: &'a [u64],
    held: usize,
    first: u64,
    last: u64,
) -> Option<usize>
    requires { Paired index.now fronts.now backs.now held }
    ensures { IsPair first last fronts.now backs.now held result }
{
    let mut cell = head(first);
    while let Some(place) = next(index, cell) {
        if fronts[place] == first && backs[place] == last {
            return Some(place);
        }
        cell = place;
    }
    None
}

// A key comes, at the place behind the live ones.
pub fn put(index: &mut [u64], live: usize, key: u64)
    requires { (ids : List ℕ) × Open index.old ids live }
    ensures { (ids : List ℕ) → Open index.old ids live → index.new ≡ index_of (ids ++ (key ∷ [])) }
{
    let cell = head(key);
    index[live] = index[cell];
    index[cell] = (live + 1) as u64;
}

// Of the cells behind a place, the first that is on a key's chain: it points at the place or past it.
fn behind(index: &[u64], key: u64, place: usize) -> usize
    requires by_index { (chains : List ℕ) × (index.now ≡ index_by chains) }
    requires place_bound { place < 256 }
    ensures { (result < 765) × ((chains : List ℕ) → index.now ≡ index_by chains → Behind chains (chain_of key) place result) }
{
    let mut cell = head(key);
    while let Some(after) = next(index, cell) {
        if after <= place {
            return cell;
        }
        cell = after;
    }
    cell
}

// The last place leaves its chain, whose head points at it.
fn pop(index: &mut [u64], last: usize, key: u64)
    requires { (chains : List ℕ) × Last index.old chains (chain_of key) last }
    ensures { (chains : List ℕ) → Last index.old chains (chain_of key) last → index.new ≡ index_by (set chains last 509) }
{
    let cell = head(key);
    index[cell] = index[last];
    index[last] = 0;
}

// A place leaves the chain of its key.
fn unlink(index: &mut [u64], place: usize, key: u64)
    requires { (chains : List ℕ) × On index.old chains (chain_of key) place }
    ensures { (chains : List ℕ) → On index.old chains (chain_of key) place → index.new ≡ index_by (set chains place 509) }
{
    let cell = behind(index, key, place);
    index[cell] = index[place];
    index[place] = 0;
}

// A place that is on no chain comes to that of a key.
fn link(index: &mut [u64], place: usize, key: u64)
    requires { (chains : List ℕ) × Off index.old chains place }
    ensures { (chains : List ℕ) → Off index.old chains place → index.new ≡ index_by (set chains place (chain_of key)) }
{
    let cell = behind(index, key, place);
    index[place] = index[cell];
    index[cell] = (place + 1) as u64;
}

// The key at a place leaves, and the one at the last place takes its place.
pub fn remove(index: &mut [u64], last: usize, place: usize, gone: u64, moved: u64)
    requires { (ids : List ℕ) × Leaving index.old ids last place gone moved }
    ensures { (ids : List ℕ) → Leaving index.old ids last place gone moved → index.new ≡ index_of (without 0 place ids) }
{
    pop(index, last, moved);
    if place == last {
        return;
    }
    unlink(index, place, gone);
    link(index, place, moved);
}
