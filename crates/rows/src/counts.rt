// How many rows there are.
ghost use Rattle.std.specs.Prelude.{◌≡◌};
ghost use Rattle.rows.specs.Kinds.{row_count};

use plan::Plan;

// 2 to the power k, and 0 where k is beyond every plan's.
#[tactic(auto, using(algebra::specs::Laws::Gathered::one_shifted), unfolding(crate::specs::Kinds::row_count, contrasts::specs::Limits::most_two))]
pub fn row_count(p: Plan) -> usize
    ensures { result ≡ row_count p }
{
    if 10 < p.k {
        return 0;
    }
    1usize << p.k
}
