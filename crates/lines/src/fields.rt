// The fields of a line. All but the first have a space before them.
ghost use Rattle.std.specs.Prelude.{[], ◌∷◌, ◌++◌, ◌≡◌};
ghost use Rattle.rows.specs.Kinds.{kind_in};
ghost use Rattle.text.specs.Text.{Writes};
ghost use Rattle.text.specs.Spelled.{decimal, signed};
ghost use Rattle.lines.specs.Lines.{space, newline, label_of};
ghost use Rattle.lines.specs.Inner.Written.{kind_text};

use rows::Kind;
use text::Text;

// The letters of a row, and `mean` for row 0.
#[tactic(auto, unfolding(crate::specs::Lines::label_of))]
pub fn label(text: &mut Text<'_>, row: u16)
    ensures { Writes text.old (label_of row) text.new }
{
    if row == 0 {
        text.copy(b"mean");
    } else {
        text.letters(row);
    }
}

pub fn next_number(text: &mut Text<'_>, n: u64)
    ensures { Writes text.old (space ∷ decimal n) text.new }
{
    text.put(b' ');
    text.number(n);
}

// Degrees and numerator.
pub fn next_pair(text: &mut Text<'_>, degrees: u64, numerator: u64)
    ensures { Writes text.old ((space ∷ decimal degrees) ++ (space ∷ decimal numerator)) text.new }
{
    next_number(text, degrees);
    next_number(text, numerator);
}

pub fn next_value(text: &mut Text<'_>, x: i64)
    ensures { Writes text.old (space ∷ signed x) text.new }
{
    text.put(b' ');
    text.value(x);
}

// The kind with this number; a number that no kind has is a row that is kept.
#[tactic(auto, unfolding(rows::specs::Kinds::kind_in))]
pub fn kind_of(number: u8) -> Kind
    ensures { result ≡ kind_in number }
{
    match number {
        1 => Kind::Error,
        2 => Kind::Mean,
        3 => Kind::Blocks,
        _ => Kind::Kept,
    }
}

// What a row is marked as, if it is error or blocks.
#[tactic(auto, using(text::specs::Laws::Writing::nothing), unfolding(crate::specs::Inner::Written::kind_text))]
pub fn next_kind(text: &mut Text<'_>, kind: Kind)
    ensures { Writes text.old (kind_text kind) text.new }
{
    match kind {
        Kind::Error => text.copy(b" error"),
        Kind::Blocks => text.copy(b" blocks"),
        Kind::Kept | Kind::Mean => {}
    }
}

// The end of a line.
pub fn end_line(text: &mut Text<'_>)
    ensures { Writes text.old (newline ∷ []) text.new }
{
    text.put(b'\n');
}
