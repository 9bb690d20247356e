// Every way to block a small plan.
ghost use Rattle.std.specs.Prelude.{◌≡◌, length};
ghost use Rattle.plan.specs.Refusals.{number_of};
ghost use Rattle.blockings.specs.Blockings.{blockings_refused, blockings_column};
ghost use Rattle.facts.specs.Facts.{blockings_count};

use plan::Refusal;

// The lists of block words in the column, and how many there are.
pub fn blockings(k: u8, words: u8, column: &mut [u16], lists: &mut usize) -> Result<(), Refusal>
    ensures value { number_of result ≡ blockings_refused k words (length column.old) }
    ensures column_after { column.new ≡ blockings_column k words column.old }
    ensures lists_after { lists.new ≡ blockings_count k words (length column.old) lists.old }
{
    let n = blockings::blockings(k, words, column)?;
    *lists = n;
    Ok(())
}
