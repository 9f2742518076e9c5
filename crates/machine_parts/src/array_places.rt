//! Where the machine's own arrays stand, by their names.
ghost use Rattle.std.specs.Prelude.{◌≡◌, OnOk, None, Some, if◌then◌else◌, true};
ghost use Rattle.kernel_code.specs.Arrays.{same_arr, may_write};
ghost use Rattle.kernel_code.specs.declared.syntax.Arr.{Arr};
ghost use Rattle.machine_parts.specs.ArrayPlaces.{place_in};

use crate::tables::{PairTable, Table};
use kernel_code::Arr;
use std::alloc::{AllocError, Global};

/// The place of each array by its name, found in constant time.
#[derive(Drop)]
pub struct ArrayPlaces {
    values: Table,
    ends: PairTable,
    coordinates: PairTable,
    widths: PairTable,
    keys: PairTable,
    sums: Table,
    list_coordinates: Table,
    list_positions: Table,
}

impl ArrayPlaces {
    /// No place for any name. It takes no memory.
    pub fn new(alloc: Global) -> ArrayPlaces
        ensures { (a : Arr) → place_in result a ≡ None }
    {
        ArrayPlaces {
            values: Table::new(alloc),
            ends: PairTable::new(alloc),
            coordinates: PairTable::new(alloc),
            widths: PairTable::new(alloc),
            keys: PairTable::new(alloc),
            sums: Table::new(alloc),
            list_coordinates: Table::new(alloc),
            list_positions: Table::new(alloc),
        }
    }

    /// The place of the array of a name, if there is one.
    pub fn get(&self, a: Arr) -> Option<u64>
        ensures { result ≡ place_in self.now a }
    {
        match a {
            Arr::Range | Arr::Dimension(_, _) => None,
            Arr::Values(tensor) => self.values.get(tensor),
            Arr::Ends(tensor, level) => self.ends.get(tensor, level),
            Arr::Coordinates(tensor, level) => self.coordinates.get(tensor, level),
            Arr::Width(tensor, level) => self.widths.get(tensor, level),
            Arr::Key(workspace, key) => self.keys.get(workspace, key),
            Arr::Sums(workspace) => self.sums.get(workspace),
            Arr::ListCoordinates(list) => self.list_coordinates.get(list),
            Arr::ListPositions(list) => self.list_positions.get(list),
        }
    }

    /// Gives the name of an array that a kernel may write a place. Refused for want of memory alone.
    pub fn set(&mut self, a: Arr, place: u64) -> Result<(), AllocError>
        requires { may_write a ≡ true }
        ensures { OnOk result ((b : Arr) → place_in self.new b ≡ (if same_arr a b then Some place else place_in self.old b)) }
    {
        match a {
            Arr::Range | Arr::Dimension(_, _) => Ok(()),
            Arr::Values(tensor) => self.values.set(tensor, place),
            Arr::Ends(tensor, level) => self.ends.set(tensor, level, place),
            Arr::Coordinates(tensor, level) => self.coordinates.set(tensor, level, place),
            Arr::Width(tensor, level) => self.widths.set(tensor, level, place),
            Arr::Key(workspace, key) => self.keys.set(workspace, key, place),
            Arr::Sums(workspace) => self.sums.set(workspace, place),
            Arr::ListCoordinates(list) => self.list_coordinates.set(list, place),
            Arr::ListPositions(list) => self.list_positions.set(list, place),
        }
    }
}
