#![tactic(auto)]

ghost use Rattle.std.specs.Prelude.{◌≡◌, Decides};
ghost use Rattle.lists.specs.Words.{Stands, FirstOf};

/// A kind of value of which `==` says yes exactly for equal ones: no comparison leaves out what tells two values apart.
pub trait Exact: PartialEq {
    ghost exact: { (x y : Self) → Decides (Self.PartialEq.eq x y) (x ≡ y) };
}

/// The number of the first record equal to `wanted`, or none.
pub fn first_equal<R: Exact>(records: &[R], wanted: &R) -> Option<usize>
    ensures { FirstOf (Stands records.now wanted.now) result }
{
    records.iter().position(|record| *record == *wanted)
}
