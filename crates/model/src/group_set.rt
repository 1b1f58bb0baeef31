ghost use Rattle.std.specs.Prelude.{◌≡◌, ℕ, true, false, ◌&&◌, ◌||◌, length, Decides};
ghost use Rattle.model.specs.GroupSets.{has, linked, part, union_of, empty, groups_of, group_count};

/// A set of the groups 0 to 7: bit g, of weight 2^g, stands for group g.
#[derive(Clone, Copy, PartialEq, Eq, Default, Debug)]
pub struct GroupSet {
    pub bits: u8,
}

impl GroupSet {
    /// Whether the two sets share a group.
    pub fn is_linked(self, other: GroupSet) -> bool
        ensures is { result ≡ linked self other }
        ensures shared { Decides result ((g : ℕ) × (has self g ≡ true) × (has other g ≡ true)) }
    {
        self.bits & other.bits != 0
    }

    /// The groups of this set that `other` has too.
    pub fn part_within(self, other: GroupSet) -> GroupSet
        ensures is { result ≡ part other self }
        ensures groups { (g : ℕ) → has result g ≡ (has self g && has other g) }
    {
        GroupSet {
            bits: self.bits & other.bits,
        }
    }

    /// The groups of either set.
    pub fn union(self, other: GroupSet) -> GroupSet
        ensures is { result ≡ union_of self other }
        ensures groups { (g : ℕ) → has result g ≡ (has self g || has other g) }
    {
        GroupSet {
            bits: self.bits | other.bits,
        }
    }

    pub fn is_empty(self) -> bool
        ensures is { result ≡ empty self }
        ensures groups { Decides result ((g : ℕ) → has self g ≡ false) }
    {
        self.bits == 0
    }

    /// How many groups the set has.
    pub fn count(self) -> u32
        ensures is { result ≡ group_count self }
        ensures groups { result ≡ length (groups_of self) }
    {
        self.bits.count_ones()
    }
}
