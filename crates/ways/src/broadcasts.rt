ghost use Rattle.std.specs.Prelude.{◌≡◌, ◌^◌, ◌<◌, ◌≤◌, map};
ghost use Rattle.std.specs.List.{range_with_len};
ghost use Rattle.lists.specs.Products.{volume, digits};
ghost use Rattle.ways.specs.Nets.{net_of};
ghost use Rattle.ways.specs.Ways.{choices};
ghost use Rattle.ways.specs.declared.way.Choice.TheVariants.{Stay};

use crate::table::Table;
use crate::way::Choice;
use model::state::State;
use model::unit_state::UNITS;

impl Table {
    /// How many combinations of choices there are while the sender broadcasts.
    pub(crate) fn combination_count(&self, state: &State, sender: usize) -> usize
        ensures is { result ≡ volume (map (choices (net_of self.now) state.now sender) (range_with_len 0 6)) }
        ensures few { result ≤ 65 ^ 6 }
    {
        (0..UNITS)
            .map(|unit| self.choice_count(state, sender, unit))
            .product()
    }

    /// The combination with this number, digit by digit: the lowest unit is the slowest.
    pub(crate) fn combination(&self, state: &State, sender: usize, number: usize) -> [Choice; UNITS]
        requires { number < volume (map (choices (net_of self.now) state.now sender) (range_with_len 0 6)) }
        ensures { result ≡ digits Stay (map (choices (net_of self.now) state.now sender) (range_with_len 0 6)) number }
    {
        // A digit needs the rest that the slower ones left, which a chain cannot carry along.
        let mut chosen = [Choice::Stay; UNITS];
        let mut rest = number;
        let mut size = self.combination_count(state, sender);
        for unit in 0..UNITS {
            size /= self.choice_count(state, sender, unit);
            chosen[unit] = self.choice(state, sender, unit, rest / size);
            rest %= size;
        }
        chosen
    }
}
