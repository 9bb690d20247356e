// The fields of a sheet. A sheet's bytes come from outside: each call takes any bytes.
//
//   bad_fields(sheet)         whether refusal 1 of the table of refusals applies
//   bad_fields_with(sheet, n) whether it applies where n fields are to hold readings, and as many marks: one of a sheet, none of its head
//   any_bad_field(sheet)      whether it applies for a field by itself, or for the order of the tags
//   Tag                       what a field holds, by its tag
//   count(sheet, tag)         how many fields there are of a tag
//   body(sheet, tag, place)   the body of one of them
#![tactic(auto)]

mod tags;
mod walks;

pub use tags::{Tag, any_bad_field, bad_fields, bad_fields_with};
pub use walks::{body, count};
