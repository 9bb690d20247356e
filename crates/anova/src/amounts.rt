// The block amount of a three-level plan: from the readings, and from the line of its row to the blocks line.
ghost use Rattle.std.specs.Prelude.{◌≡◌, ◌-◌, ◌<◌, ◌≤◌, length, get_or, set, replicate};
ghost use Rattle.contrasts.specs.Blocks.{block_numerator};
ghost use Rattle.contrasts.specs.Columns.{read, run_sums_in};
ghost use Rattle.contrasts.proofs.Factors.{three};
ghost use Rattle.anova.specs.Inner.Figures.{leaves, moved_figures};
ghost use Rattle.anova.specs.Inner.Ready.{Amountable, Leavable, Enterable, Movable};
ghost use Rattle.anova.specs.Table.{joined};

use super::types::{Figures, Source};
use blocks::block_amount;
use repeats::sum_runs;

// The block amount, from the run sums. The column is used for these.
pub fn amount_of(k: u8, word: u16, repeats: usize, readings: &[i32], column: &mut [i64]) -> u64
    requires { Amountable k word repeats readings.now column.old }
    ensures value { result ≡ block_numerator (replicate k three) 1 word (read (run_sums_in (length column.old) repeats readings.now)) }
    ensures column_len_unchanged { length column.new ≡ length column.old }
{
    sum_runs(readings, repeats, column);
    block_amount(k, word, column)
}

// The amount leaves its row.
pub fn leave_row(row: usize, amount: u64, rows: &mut [u64])
    requires { (row < length rows.old) × (amount ≤ get_or rows.old row 0) }
    ensures { rows.new ≡ set rows.old row (get_or rows.old row 0 - amount) }
{
    rows[row] -= amount;
}

// What a line has left where the amount's row is one of its own: the amount leaves it, with 2 degrees.
#[tactic(auto, unfolding(crate::specs::Inner::Figures::leaves))]
fn left(line: Source, own: bool, amount: u64) -> Source
    requires { Leavable line own amount }
    ensures { result ≡ leaves line own amount }
{
    if own {
        Source {
            degrees: line.degrees - 2,
            numerator: line.numerator - amount,
        }
    } else {
        line
    }
}

// The amount enters a line, with 2 degrees.
#[tactic(auto, unfolding(crate::specs::Table::joined))]
fn entered(line: Source, amount: u64) -> Source
    requires { Enterable line amount }
    ensures { result ≡ joined line (record { degrees = 2; numerator = amount }) }
{
    Source {
        degrees: line.degrees + 2,
        numerator: line.numerator + amount,
    }
}

// The figures with the amount in the blocks line. Its row is error where it is marked, and else kept.
#[tactic(auto, unfolding(crate::specs::Inner::Figures::moved_figures))]
pub fn move_amount(figures: Figures, marked: bool, amount: u64) -> Figures
    requires { Movable figures marked amount }
    ensures { result ≡ moved_figures figures marked amount }
{
    Figures {
        kept: left(figures.kept, !marked, amount),
        blocks: entered(figures.blocks, amount),
        error: left(figures.error, marked, amount),
        ..figures
    }
}
