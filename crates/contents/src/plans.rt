// The plan of a sheet.
ghost use Rattle.std.specs.Prelude.{◌≡◌};
ghost use Rattle.algebra.specs.Tab.{tab};
ghost use Rattle.fields.specs.Fields.{fields_of, body_at};
ghost use Rattle.contents.specs.Contents.{byte_at, word_in, repeats_in, needless, plan_in};
ghost use Rattle.contents.specs.Held.{held};

use fields::{Tag, body, count};
use numerals::{byte, pair};
use plan::Plan;

// The word that a body begins with.
fn word(body: &[u8]) -> u16
    ensures { result ≡ word_in body.now }
{
    pair(byte(body, 0), byte(body, 1))
}

// The words of the first added factors, 0 where there is none.
fn added_words(sheet: &[u8]) -> [u16; 6]
    ensures { result ≡ tab 6 (λ i. word_in (body_at 2 i (fields_of sheet.now))) }
{
    std::array::from_fn(|i| word(body(sheet, Tag::Added as u8, i)))
}

// Their signs.
fn added_signs(sheet: &[u8]) -> [u8; 6]
    ensures { result ≡ tab 6 (λ i. byte_at 2 (body_at 2 i (fields_of sheet.now))) }
{
    std::array::from_fn(|i| byte(body(sheet, Tag::Added as u8, i), 2))
}

// The first block words, 0 where there is none.
fn block_words(sheet: &[u8]) -> [u16; 4]
    ensures { result ≡ tab 4 (λ i. word_in (body_at 3 i (fields_of sheet.now))) }
{
    std::array::from_fn(|i| word(body(sheet, Tag::Block as u8, i)))
}

// How often each run is made: once, where no field says more.
fn repeats_in(sheet: &[u8]) -> u8
    ensures { result ≡ repeats_in (fields_of sheet.now) }
{
    if count(sheet, Tag::Repeats as u8) == 0 {
        return 1;
    }
    byte(body(sheet, Tag::Repeats as u8, 0), 0)
}

// Whether a field says that each run is made once, which no field need say.
#[tactic(auto, unfolding(crate::specs::Contents::needless))]
pub fn needless_repeats(sheet: &[u8]) -> bool
    ensures { result ≡ needless (fields_of sheet.now) }
{
    count(sheet, Tag::Repeats as u8) != 0 && byte(body(sheet, Tag::Repeats as u8, 0), 0) == 1
}

// The plan of any sheet. More added factors or block words than a plan holds are counted as one more than it holds, which is refused.
#[tactic(auto, unfolding(crate::specs::Contents::plan_in, crate::specs::Held::held))]
pub fn plan_in(sheet: &[u8]) -> Plan
    ensures { result ≡ held (plan_in (fields_of sheet.now)) }
{
    let factors = body(sheet, Tag::Factors as u8, 0);
    Plan {
        levels: byte(factors, 0),
        k: byte(factors, 1),
        added: count(sheet, Tag::Added as u8).min(7) as u8,
        words: added_words(sheet),
        signs: added_signs(sheet),
        blocks: count(sheet, Tag::Block as u8).min(5) as u8,
        blockwords: block_words(sheet),
        repeats: repeats_in(sheet),
    }
}
