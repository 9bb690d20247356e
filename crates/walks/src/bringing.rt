// What one effect brings to rows and sums: the body of the walk.
ghost use Rattle.std.specs.Prelude.{◌≡◌, ◌*◌, nat_abs, set};
ghost use Rattle.rows.specs.Kinds.{code_of};
ghost use Rattle.walks.specs.State.{brought, place_of, plus_at};
ghost use Rattle.walks.specs.Inner.Ready.{BringsTwo, BringsThree};

use super::parts::{add, place_of};
use super::squares::{numerator, square};
use rows::Kind;

// At two levels an effect is the only one of its row, which has its number, and its numerator is its total squared.
pub fn bring_two(
    effect: usize,
    total: i64,
    kind: Kind,
    half: usize,
    rows: &mut [u64],
    parts: &mut [u64],
)
    requires { BringsTwo effect total kind half rows.old parts.old }
    ensures rows_after { rows.new ≡ set rows.old effect (nat_abs total * nat_abs total) }
    ensures parts_after { parts.new ≡ brought parts.old (place_of (code_of kind) half) (nat_abs total * nat_abs total) }
{
    let n = square(total);
    rows[effect] = n;
    add(place_of(kind, half), n, parts);
}

// At three levels a row has several effects, and the numerators of all are added.
pub fn bring_three(
    row: usize,
    total: i64,
    weight: u32,
    kind: Kind,
    half: usize,
    rows: &mut [u64],
    parts: &mut [u64],
)
    requires { BringsThree row total weight kind half rows.old parts.old }
    ensures rows_after { rows.new ≡ plus_at rows.old row (nat_abs total * nat_abs total * weight) }
    ensures parts_after { parts.new ≡ brought parts.old (place_of (code_of kind) half) (nat_abs total * nat_abs total * weight) }
{
    let n = numerator(total, weight);
    let before = rows[row];
    rows[row] = before + n;
    add(place_of(kind, half), n, parts);
}
