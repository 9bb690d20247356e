// The tags of a sheet's fields, and refusal 1 of the table of refusals, judged over the whole sheet.
ghost use Rattle.std.specs.Prelude.{◌≡◌, ℕ, false, MatchOption};
ghost use Rattle.fields.specs.Fields.{fields_of};
ghost use Rattle.fields.specs.Tags.{tag_number, tag_rules, admits, place_of, bad_from, bad_with, bad_fields};

use super::walks::{Fields, count};

// What a field holds, by its tag.
#[derive(Clone, Copy)]
pub enum Tag {
    // Levels, and how many base factors.
    Factors = 1,
    // The word and the sign of an added factor.
    Added = 2,
    // A block word.
    Block = 3,
    Readings = 4,
    Marks = 5,
    // How often each run is made.
    Repeats = 6,
}

impl Tag {
    // The tag that a byte is, if it is one.
    fn of(byte: u8) -> Option<Tag>
        ensures { MatchOption result ((n : ℕ) → admits tag_rules byte n ≡ false) (λ tag. tag_number tag ≡ byte) }
    {
        match byte {
            1 => Some(Tag::Factors),
            2 => Some(Tag::Added),
            3 => Some(Tag::Block),
            4 => Some(Tag::Readings),
            5 => Some(Tag::Marks),
            6 => Some(Tag::Repeats),
            _ => None,
        }
    }

    // Its place in the order in which the tags of a sheet stand.
    fn place(self) -> u8
        ensures { result ≡ place_of tag_rules (tag_number self) }
    {
        match self {
            Tag::Factors => 1,
            Tag::Added => 2,
            Tag::Block => 3,
            Tag::Repeats => 4,
            Tag::Readings => 5,
            Tag::Marks => 6,
        }
    }

    // Whether its fields have this length.
    fn admits(self, length: usize) -> bool
        ensures { result ≡ admits tag_rules (tag_number self) length }
    {
        match self {
            Tag::Factors | Tag::Block => length == 2,
            Tag::Added => length == 3,
            Tag::Repeats => length == 1,
            Tag::Readings => length % 4 == 0,
            Tag::Marks => true,
        }
    }
}

// Whether a field is cut short, has a tag that comes before the one before it, an unknown tag or a wrong length.
// (A `for` would take the walk, whose rest is asked for after the loop.)
pub fn any_bad_field(sheet: &[u8]) -> bool
    ensures { result ≡ bad_from 0 (fields_of sheet.now) }
{
    let mut last = 0;
    let mut fields = Fields { rest: sheet };
    while let Some(field) = fields.next() {
        let Some(tag) = Tag::of(field.tag) else {
            return true;
        };
        let here = tag.place();
        if here < last {
            return true;
        }
        if !tag.admits(field.body.len()) {
            return true;
        }
        last = here;
    }
    !fields.rest.is_empty()
}

// Refusal 1 of bytes that have so many fields of readings, and as many of marks: a sheet has one, and its head none.
#[tactic(auto, unfolding(crate::specs::Tags::bad_with))]
pub fn bad_fields_with(sheet: &[u8], columns: usize) -> bool
    ensures { result ≡ bad_with columns (fields_of sheet.now) }
{
    any_bad_field(sheet)
        || count(sheet, Tag::Factors as u8) != 1
        || count(sheet, Tag::Repeats as u8) > 1
        || count(sheet, Tag::Readings as u8) != columns
        || count(sheet, Tag::Marks as u8) != columns
}

#[tactic(auto, unfolding(crate::specs::Tags::bad_with, crate::specs::Tags::bad_fields))]
pub fn bad_fields(sheet: &[u8]) -> bool
    ensures { result ≡ bad_fields (fields_of sheet.now) }
{
    bad_fields_with(sheet, 1)
}
