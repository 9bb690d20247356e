// The block amount: the sums of the three blocks, and the squares of their differences.
ghost use Rattle.std.specs.Prelude.{◌≡◌, ◌+◌, ◌*◌, ◌%◌, ◌^◌, ◌<◌, ◌≤◌, ◌-ℤ◌, replicate};
ghost use Rattle.algebra.specs.Laws.Size.{sq};
ghost use Rattle.contrasts.specs.Blocks.{block_numerator};
ghost use Rattle.contrasts.specs.Columns.{read};
ghost use Rattle.contrasts.proofs.Factors.{three};
ghost use Rattle.blocks.specs.Ready.{added, set_added, Addable, SetAddable, Blockable, BlockSized};

use plan::three_block;
use walks::square;

// The block of a run whose level of A is one more, by the word's digit for A.
fn next_block(block: u8, digit: u8) -> u8
    requires { (block < 3) × (digit < 3) }
    ensures { result ≡ (block + digit) % 3 }
{
    (block + digit) % 3
}

// A value is added to the sum of its block.
fn add(sums: &mut [i64], block: u8, value: i64)
    requires { Addable sums.old block value }
    ensures { sums.new ≡ added sums.old block value }
{
    sums[block as usize] += value;
}

// The values of three runs that differ in the level of A alone are added, each to the sum of its block; the block is that of the first.
fn add_set(sums: &mut [i64], block: u8, digit: u8, first: i64, middle: i64, third: i64)
    requires { SetAddable sums.old block digit first middle third }
    ensures { sums.new ≡ set_added sums.old block digit first middle third }
{
    let next = next_block(block, digit);
    let last = next_block(next, digit);
    add(sums, block, first);
    add(sums, next, middle);
    add(sums, last, third);
}

// The square of what two block sums differ by.
fn squared_difference(one: i64, other: i64) -> u64
    requires { BlockSized one × BlockSized other }
    ensures { (result ≡ sq (one -ℤ other)) × (result ≤ 41_943_040_000_000_000) }
{
    square(one - other)
}

// These of three block sums, 2 to the power k times. They are added up, so nothing can be cut off at 0.
fn amount(k: u8, first: i64, second: i64, third: i64) -> u64
    requires { (k ≤ 6) × BlockSized first × BlockSized second × BlockSized third }
    ensures { result ≡ 2 ^ k * (sq (first -ℤ second) + sq (first -ℤ third) + sq (second -ℤ third)) }
{
    let apart = squared_difference(first, second)
        + squared_difference(first, third)
        + squared_difference(second, third);
    (1u64 << k) * apart
}

// The block amount of k three-level factors with this word, from the column of their run sums. A turn of the loop has the three runs that differ in the
// level of A alone.
pub fn block_amount(k: u8, word: u16, column: &[i64]) -> u64
    requires { Blockable k word column.now }
    ensures { result ≡ block_numerator (replicate k three) 1 word (read column.now) }
{
    let digit = (word % 3) as u8;
    let mut sums = [0i64; 3];
    for set in 0..column.len() / 3 {
        let block = three_block(k - 1, word / 3, set);
        let run = 3 * set;
        add_set(
            &mut sums,
            block,
            digit,
            column[run],
            column[run + 1],
            column[run + 2],
        );
    }
    amount(k, sums[0], sums[1], sums[2])
}
