ghost use Rattle.std.specs.Prelude.{◌≡◌, ◌≤◌};

use crate::table::Table;
use model::group_set::GroupSet;
use model::placement::UnitCount;
use rows::program::Program;

impl Table {
    /// The network of so many units, which follow the program and are heard on the free groups.
    pub fn new(free: GroupSet, units: UnitCount, program: Program) -> Table
        ensures free { result.free ≡ free }
        ensures units { result.units ≡ units.count }
        ensures program { result.program ≡ program }
    {
        Table {
            free,
            units: units.get(),
            program,
        }
    }

    /// The groups on which the units are seen.
    pub fn free(&self) -> GroupSet
        ensures { result ≡ self.now.free }
    {
        self.free
    }

    /// How many units there are, from 1 to 6.
    pub fn units(&self) -> usize
        ensures is { result ≡ self.now.units }
        ensures some { 1 ≤ result }
        ensures most { result ≤ 6 }
    {
        self.units
    }

    /// The program that every unit follows.
    pub fn program(&self) -> &Program
        ensures { result.now ≡ self.now.program }
    {
        &self.program
    }
}
