// The walk over a sheet, from field to field.
ghost use Rattle.std.specs.Prelude.{◌≡◌, length};
ghost use Rattle.std.specs.Iterator.{at_most};
ghost use Rattle.fields.specs.Fields.{fields_of, bodies, body_at};
ghost use Rattle.fields.specs.Inner.Walk.{Gives};

use numerals::pair;

#[derive(Clone, Copy, Drop)]
pub struct Field<'a> {
    pub tag: u8,
    pub body: &'a [u8],
}

// The fields of a sheet, up to its end or to one that is cut short.
#[derive(Drop)]
pub struct Fields<'a> {
    pub rest: &'a [u8],
}

impl<'a> Iterator for Fields<'a> {
    type Item = Field<'a>;

    ghost next_gives = { λ s r t. Gives (fields_of s.rest.now) r (fields_of t.rest.now) };

    ghost remaining = { λ s. at_most (length s.rest.now) };

    fn next(&mut self) -> Option<Field<'a>> {
        let [tag, high, low, others @ ..] = self.rest else {
            return None;
        };
        let (body, rest) = others.split_at_checked(pair(*high, *low) as usize)?;
        self.rest = rest;
        Some(Field { tag: *tag, body })
    }
}

// How many fields of a tag there are before the end of the sheet, or before a field that is cut short. The tag is any byte and not a `Tag`,
// as it always was: the promise holds for each, and records of the gate's programs have a tag 9.
pub fn count(sheet: &[u8], tag: u8) -> usize
    ensures { result ≡ length (bodies tag (fields_of sheet.now)) }
{
    Fields { rest: sheet }
        .filter(|field| field.tag == tag)
        .count()
}

// The body of a field of a tag, the first of them at place 0; an empty part where there is none.
pub fn body(sheet: &[u8], tag: u8, place: usize) -> &[u8]
    ensures { result.now ≡ body_at tag place (fields_of sheet.now) }
{
    Fields { rest: sheet }
        .filter(|field| field.tag == tag)
        .nth(place)
        .map_or(&[], |field| field.body)
}
