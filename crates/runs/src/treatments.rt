// The run call: the letters that are high in a run, and its block.
ghost use Rattle.std.specs.Prelude.{◌≡◌, ◌+◌, ◌^◌, ◌≤◌, ◌<◌, length, replicate};
ghost use Rattle.contrasts.specs.Blocks.{block_of};
ghost use Rattle.contrasts.proofs.Factors.{three};
ghost use Rattle.plan.specs.Outcome.{outcome};
ghost use Rattle.plan.specs.Plan.{added_words, added_signs, block_words, three_word};
ghost use Rattle.runs.specs.Run.{high_by, high_letters, block_number, run_refused, run_values, run_outcome};

use super::powers::put_if;
use super::types::Run;
use plan::{Plan, Refusal, check, runs, three_block, three_word};
use words::is_odd;

// Whether an added factor is high in the run.
fn is_high(run: u16, word: u16, sign: u8) -> bool
    ensures { result ≡ high_by sign word run }
{
    let odd = is_odd(run, word);
    if sign == 0 { odd } else { !odd }
}

// The run's own letters, and those of the added factors that are high in it.
fn high_letters(run: u16, k: usize, words: &[u16], signs: &[u8]) -> u16
    requires { (run < 2 ^ k) × (k + length words.now ≤ 16) × (length words.now ≤ length signs.now) }
    ensures { result ≡ high_letters k words.now signs.now run }
{
    let mut high = run;
    for (j, word) in words.iter().enumerate() {
        high = put_if(is_high(run, *word, signs[j]), high, k + j);
    }
    high
}

// Bit j of a run's block is set when an odd number of the letters of block word j are high.
fn block_number(run: u16, words: &[u16]) -> u8
    requires { length words.now ≤ 4 }
    ensures { result ≡ block_number words.now run }
{
    let mut block = 0;
    for (j, word) in words.iter().enumerate() {
        block = put_if(is_odd(run, *word), block, j);
    }
    block as u8
}

// A run of a plan of two levels.
fn treatment(p: &Plan, number: usize) -> Run
    requires { (number < 2 ^ p.now.k) × (p.now.k ≤ 10) }
    ensures { result ≡ record { high = high_letters p.now.k (added_words p.now) (added_signs p.now) number; block = block_number (block_words p.now) number } }
{
    let run = number as u16;
    Run {
        high: high_letters(run, p.k as usize, p.added_words(), p.added_signs()),
        block: block_number(run, p.block_words()),
    }
}

// A run of a plan of three levels: no letters, and the block by the plan's word, which is 0 without one.
fn three_treatment(p: &Plan, number: usize) -> Run
    ensures { result ≡ record { high = 0; block = block_of (replicate p.now.k three) (three_word p.now) number } }
{
    Run {
        high: 0,
        block: three_block(p.k, three_word(*p), number),
    }
}

// The letters that are high in the run of this number, and its block.
// (Two lines each: a trait would be no plainer.)
#[tactic(auto, using(plan::proofs::Laws::Answers::refused_first), unfolding(crate::specs::Run::run_refused))]
pub fn run(p: Plan, number: usize) -> Result<Run, Refusal>
    ensures { run_outcome result ≡ outcome (run_refused p number) (run_values p number) }
{
    check(p)?;
    if runs(p) <= number {
        return Err(Refusal::NotInPlan);
    }
    if p.levels == 3 {
        return Ok(three_treatment(&p, number));
    }
    Ok(treatment(&p, number))
}
