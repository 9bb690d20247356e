// The blocking call.
ghost use Rattle.std.specs.Prelude.{◌≡◌, ◌++◌, ◌+◌, ◌≤◌, length, drop};
ghost use Rattle.algebra.specs.Laws.Collected.{placed};
ghost use Rattle.plan.specs.Outcome.{outcome};
ghost use Rattle.blockings.specs.Blockings.{blockings_of, blocking_words, blockings_refused, blockings_column, blockings_outcome};
ghost use Rattle.blockings.specs.Inner.Numbered.{words_at};
ghost use Rattle.blockings.specs.Inner.Ready.{InRange};

use super::lists::{all_lists, is_listed, put_list};
use super::refusals::check_blockings;
use plan::Refusal;

// The list with the number i is put into the column from a place on.
fn put_at(k: u8, words: u8, i: usize, at: usize, column: &mut [u16])
    requires { (k ≤ 5) × (words ≤ 3) × (at + words ≤ length column.old) }
    ensures { column.new ≡ placed at (words_at k words i) column.old }
{
    let end = at + words as usize;
    put_list(k as usize, i, &mut column[at..end]);
}

// Writes the lists one after the other, and counts them.
fn write(k: u8, words: u8, column: &mut [u16]) -> usize
    requires { InRange k words × (length (blocking_words k words) ≤ length column.old) }
    ensures value { result ≡ length (blockings_of k words) }
    ensures column_after { column.new ≡ blocking_words k words ++ drop (length (blocking_words k words)) column.old }
{
    let all = all_lists(k, words);
    let mut n = 0;
    for i in 0..all {
        if is_listed(k, words, i) {
            put_at(k, words, i, n * words as usize, column);
            n += 1;
        }
    }
    n
}

// Writes every list of so many strictly rising words that the plan check accepts as the block words of a plan of k factors at two levels with
// no added factor: in rising order, a place for each word, later places kept. It answers how many lists there are, which may be 0. Refused with
// 3 for a k that is not 2 to 5, 17 for other than one to three words, 18 for fewer places than words; then no place changes.
#[tactic(auto, using(plan::proofs::Laws::Answers::left_alone), unfolding(crate::specs::Blockings::blockings_column))]
pub fn blockings(k: u8, words: u8, column: &mut [u16]) -> Result<usize, Refusal>
    ensures result_value { blockings_outcome result ≡ outcome (blockings_refused k words (length column.old)) (length (blockings_of k words)) }
    ensures column_after { column.new ≡ blockings_column k words column.old }
{
    check_blockings(k, words, column.len())?;
    Ok(write(k, words, column))
}
