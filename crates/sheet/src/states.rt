ghost use Rattle.std.specs.Prelude.{◌≡◌, ℕ, true, Decides};
ghost use Rattle.sheet.specs.States.{state_at, sheet_lawful, number_of};

use model::state::State;

/// The state of a sheet with the number.
pub fn state_at(number: u8) -> State
    ensures is { result ≡ state_at number }
    ensures lawful { sheet_lawful result ≡ true }
    ensures number { number_of result ≡ number }
{
    let mut state = State::default();
    state.units[0].location = number;
    state
}

/// Whether the state is one that a number stands for.
pub(crate) fn is_lawful(state: &State) -> bool
    ensures is { result ≡ sheet_lawful state.now }
    ensures numbered { Decides result ((n : ℕ) × (state.now ≡ state_at n)) }
{
    // by its bytes, whose contract says that no other state has them
    state.to_bytes()[1..] == [0; 23]
}

/// The number of a state, which is its first byte.
pub(crate) fn number_of(state: &State) -> u8
    ensures { result ≡ number_of state.now }
{
    state.units[0].location
}
