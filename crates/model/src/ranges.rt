ghost use Rattle.std.specs.Prelude.{◌≡◌, ◌≤ℤ◌, Decides, IfOk, Some, codes};
ghost use Rattle.questions.specs.Asking.{first_no, refusal_of};
ghost use Rattle.model.specs.Ranges.{in_range, range_asked, range_refusal};

use crate::range::{Backward, Range};
use crate::value::Value;
use questions::Refusal;
use std::error::Error;
use std::fmt;

impl Range {
    /// The range from `lo` to `hi`, or a refusal with question 1.
    pub fn new(lo: Value, hi: Value) -> Result<Range, Backward>
        ensures refuses { refusal_of range_refusal result ≡ first_no (range_asked lo hi) }
        ensures makes { IfOk result (λ x. (x.lo ≡ lo) × (x.hi ≡ hi)) }
    {
        if lo <= hi {
            Ok(Range { lo, hi })
        } else {
            Err(Backward)
        }
    }

    /// The lowest value.
    pub fn lo(&self) -> Value
        ensures { result ≡ self.now.lo }
    {
        self.lo
    }

    /// The highest value.
    pub fn hi(&self) -> Value
        ensures { result ≡ self.now.hi }
    {
        self.hi
    }

    /// Whether a value lies in the range.
    pub fn holds(&self, value: Value) -> bool
        ensures is { result ≡ in_range self.now.lo self.now.hi value }
        ensures within { Decides result ((self.now.lo ≤ℤ value) × (value ≤ℤ self.now.hi)) }
    {
        self.lo <= value && value <= self.hi
    }
}

impl Backward {
    pub fn refusal(&self) -> Refusal
        ensures { result ≡ range_refusal self.now }
    {
        Refusal::of(1, 0)
    }
}

impl fmt::Display for Backward {
    ghost output = { λ _. Some (codes "the range's lowest value is above its highest") };

    fn fmt<W: fmt::Write>(&self, f: &mut fmt::Formatter<W>) -> fmt::Result {
        f.write_str("the range's lowest value is above its highest")
    }
}

impl Error for Backward {}
