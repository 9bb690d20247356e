// The lists of words by their numbers, and which of them block a plan.
ghost use Rattle.std.specs.Prelude.{◌≡◌, ◌*◌, ◌^◌, ◌<◌, ◌≤◌, length, take};
ghost use Rattle.blockings.specs.Blockings.{strictly_rising, blocked_plan, is_blocking};
ghost use Rattle.blockings.specs.Inner.Numbered.{word_at, words_at};

use plan::{Plan, check};

// The word at a place of the list with the number i: a digit to the base 2 ^ k, the first word the highest.
// (That k is at most 5 and the words at most 3 is what the call checks first; a type for the two would be opened at each shift: no plainer.)
fn word_at(k: usize, words: usize, i: usize, place: usize) -> u16
    requires { (k ≤ 5) × (words ≤ 3) × (place < words) }
    ensures { result ≡ word_at k words i place }
{
    ((i >> (k * (words - place - 1))) % (1usize << k)) as u16
}

// The list with the number i is put into as many places as it has words.
pub fn put_list(k: usize, i: usize, places: &mut [u16])
    requires { (k ≤ 5) × (length places.old ≤ 3) }
    ensures { places.new ≡ words_at k (length places.old) i }
{
    let words = places.len();
    for place in 0..words {
        places[place] = word_at(k, words, i, place);
    }
}

// Whether each word is below the next.
fn rises(words: &[u16]) -> bool
    ensures { result ≡ strictly_rising words.now }
{
    for j in 1..words.len() {
        if words[j] <= words[j - 1] {
            return false;
        }
    }
    true
}

// The plan of two levels with these block words, with no added factor and each run made once; of a longer list the first four words.
pub fn blocked_plan(k: u8, list: &[u16]) -> Plan
    ensures { result ≡ blocked_plan k (take 4 list.now) }
{
    let n = list.len().min(4);
    let mut blockwords = [0u16; 4];
    blockwords[..n].copy_from_slice(&list[..n]);
    Plan {
        levels: 2,
        k,
        added: 0,
        words: [0; 6],
        signs: [0; 6],
        blocks: n as u8,
        blockwords,
        repeats: 1,
    }
}

// Whether the words rise, and the plan check accepts them as block words.
#[tactic(auto, unfolding(crate::specs::Blockings::is_blocking))]
fn is_blocking(k: u8, list: &[u16]) -> bool
    requires { length list.now ≤ 3 }
    ensures { result ≡ is_blocking k list.now }
{
    rises(list) && check(blocked_plan(k, list)).is_ok()
}

// The same of the list with the number i.
pub fn is_listed(k: u8, words: u8, i: usize) -> bool
    requires { (k ≤ 5) × (words ≤ 3) }
    ensures { result ≡ is_blocking k (words_at k words i) }
{
    let mut places = [0u16; 3];
    let list = &mut places[..words as usize];
    put_list(k as usize, i, list);
    is_blocking(k, list)
}

// How many lists of so many words there are, rising or not.
pub fn all_lists(k: u8, words: u8) -> usize
    requires { (k ≤ 5) × (words ≤ 3) }
    ensures { (result ≡ 2 ^ (k * words)) × (result ≤ 32768) }
{
    1usize << (k as usize * words as usize)
}
