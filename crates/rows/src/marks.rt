// Refusal 13: marks over 1, and marks on rows that have none.
ghost use Rattle.std.specs.Prelude.{◌≡◌, ◌≤◌, length};
ghost use Rattle.plan.specs.Plan.{some_combination};
ghost use Rattle.rows.specs.Kinds.{marked, bad_marks};
ghost use Rattle.rows.specs.Inner.Written.{any_over};

use plan::Plan;
use words::{choices, combine};

// Whether a mark is neither 0 nor 1. The loop does not stop early, so it is compiled to work several marks at a time.
fn any_over(marks: &[u8]) -> bool
    ensures { result ≡ any_over marks.now }
{
    let mut any = false;
    for mark in marks {
        any = any | (1 < *mark);
    }
    any
}

// Whether a row has mark 1. A row beyond the marks has none.
pub fn is_marked(marks: &[u8], row: usize) -> bool
    ensures { result ≡ marked marks.now row }
{
    marks.get(row).copied().unwrap_or(0) == 1
}

// Whether a combination of one or more of the words has mark 1.
fn any_block_marked(words: &[u16], marks: &[u8]) -> bool
    requires { length words.now ≤ 4 }
    ensures { result ≡ some_combination words.now (marked marks.now) }
{
    for choice in 1..choices(words.len()) {
        if is_marked(marks, combine(0, choice, words) as usize) {
            return true;
        }
    }
    false
}

// Whether the marks are refused: one is over 1, or the mean or a combination of block words is marked.
#[tactic(auto, using(crate::proofs::Judging::judged))]
pub fn bad_marks(p: Plan, marks: &[u8]) -> bool
    ensures { result ≡ bad_marks p marks.now }
{
    any_over(marks) || is_marked(marks, 0) || any_block_marked(p.block_words(), marks)
}
