// What the fields of a sheet say, for any bytes.
//
//   plan_in(sheet)               the plan
//   needless_repeats(sheet)      whether a field says that each run is made once
//   any_beyond(p, body)          whether a reading of the body of field 4 is refused
//   put_readings(body, column)   its readings, in a column of as many places
#![tactic(auto)]

mod plans;
mod readings;

pub use plans::{needless_repeats, plan_in};
pub use readings::{any_beyond, put_readings};
