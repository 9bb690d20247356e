// The kind of each row.
ghost use Rattle.std.specs.Prelude.{◌≡◌, ◌≤◌, length, set};
ghost use Rattle.rows.specs.Kinds.{kind_by_mark, kinds_of};
ghost use Rattle.rows.specs.Inner.Written.{with_marks, with_blocks};

use super::kind::Kind;
use plan::Plan;
use words::{choices, combine};

// What a row is by its mark alone.
#[tactic(auto, unfolding(crate::specs::Kinds::kind_by_mark))]
fn kind_by_mark(mark: u8) -> Kind
    ensures { result ≡ kind_by_mark mark }
{
    if mark == 1 { Kind::Error } else { Kind::Kept }
}

// Each row by its mark.
fn put_marks(marks: &[u8], kinds: &mut [Kind])
    ensures { kinds.new ≡ with_marks marks.now kinds.old }
{
    for row in 0..marks.len().min(kinds.len()) {
        kinds[row] = kind_by_mark(marks[row]);
    }
}

// The kind is put at a row, if there is a place for it. (Of what `get_mut` lends no proof knows what was written.)
fn put(kinds: &mut [Kind], row: usize, kind: Kind)
    ensures { kinds.new ≡ set kinds.old row kind }
{
    if row < kinds.len() {
        kinds[row] = kind;
    }
}

// All combinations of one or more block words are blocks.
fn put_combinations(words: &[u16], kinds: &mut [Kind])
    requires { length words.now ≤ 4 }
    ensures { kinds.new ≡ with_blocks words.now kinds.old }
{
    for choice in 1..choices(words.len()) {
        put(kinds, combine(0, choice, words) as usize, Kind::Blocks);
    }
}

// The kind of each row, and of numbers below 1,024 that a smaller plan has no row for.
#[inline(never)]
pub fn kinds(p: Plan, marks: &[u8]) -> [Kind; 1024]
    ensures { result ≡ kinds_of p marks.now }
{
    let mut kinds = [Kind::Kept; 1024];
    put_marks(marks, &mut kinds);
    put_combinations(p.block_words(), &mut kinds);
    kinds[0] = Kind::Mean;
    kinds
}
