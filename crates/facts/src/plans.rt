// Figures of the plan of a head.
ghost use Rattle.std.specs.Prelude.{◌≡◌};
ghost use Rattle.plan.specs.Refusals.{number_of};
ghost use Rattle.heads.specs.Heads.{head_refused};
ghost use Rattle.facts.specs.Facts.{run_on_head, run_high, run_block, alias_on_head, alias_word, alias_turned, estimate_on_head, estimate_kind, estimate_double};

use estimates::Estimate;
use heads::{check_head, read_head};
use plan::Refusal;

// The numbers that C knows the three outcomes of an estimate by: the C interface needs them.
const MEAN: u8 = 0;

const DIFFERENCE: u8 = 1;

const LOST: u8 = 2;

// The plan check.
pub fn check(head: &[u8]) -> Result<(), Refusal>
    ensures { number_of result ≡ head_refused head.now }
{
    check_head(head)
}

// The letters that are high in a run, and its block.
pub fn run(head: &[u8], number: usize, high: &mut u16, block: &mut u8) -> Result<(), Refusal>
    ensures value { number_of result ≡ run_on_head head.now number }
    ensures high_after { high.new ≡ run_high head.now number high.old }
    ensures block_after { block.new ≡ run_block head.now number block.old }
{
    let p = read_head(head)?;
    let run = runs::run(p, number)?;
    *high = run.high;
    *block = run.block;
    Ok(())
}

// The base word that an effect reduces to, and 1 where its sign turns, else 0.
pub fn alias(head: &[u8], effect: u16, word: &mut u16, turned: &mut u8) -> Result<(), Refusal>
    ensures value { number_of result ≡ alias_on_head head.now effect }
    ensures word_after { word.new ≡ alias_word head.now effect word.old }
    ensures turned_after { turned.new ≡ alias_turned head.now effect turned.old }
{
    let p = read_head(head)?;
    let alias = aliases::alias(p, effect)?;
    *word = alias.word;
    *turned = u8::from(alias.turned);
    Ok(())
}

// The mean or a difference by the total of an effect, or that the effect is lost; the double keeps its value then.
pub fn estimate(
    head: &[u8],
    effect: u16,
    total: i64,
    kind: &mut u8,
    value: &mut f64,
) -> Result<(), Refusal>
    ensures value { number_of result ≡ estimate_on_head head.now effect total }
    ensures kind_after { kind.new ≡ estimate_kind head.now effect total kind.old }
    ensures value_after { value.new ≡ estimate_double head.now effect total value.old }
{
    let p = read_head(head)?;
    match estimates::estimate(p, effect, total)? {
        Estimate::Mean(mean) => {
            *kind = MEAN;
            *value = mean;
        }
        Estimate::Difference(difference) => {
            *kind = DIFFERENCE;
            *value = difference;
        }
        Estimate::Lost => *kind = LOST,
    }
    Ok(())
}
