//! Tables of numbers that are looked up in constant time: by a number, and by two.
ghost use Rattle.std.specs.Prelude.{◌≡◌, ◌≤◌, ◌<◌, ℕ, length, OnOk, IsOk, None, Some, if◌then◌else◌, ◌==◌, ◌&&◌};
ghost use Rattle.machine_parts.specs.ArrayPlaces.{held, held_pair, room_of};

use std::alloc::{AllocError, Global};

/// Numbers by number. It grows to the greatest number that one was given for.
#[derive(Drop)]
pub struct Table {
    items: Vec<Option<u64>>,
}

impl Table {
    /// A table with no number. It takes no memory.
    pub fn new(alloc: Global) -> Table
        ensures { (x : ℕ) → held result x ≡ None }
    {
        Table {
            items: Vec::new(alloc),
        }
    }

    /// The number for x, if there is one.
    #[inline(always)]
    pub fn get(&self, x: u64) -> Option<u64>
        ensures { result ≡ held self.now x }
    {
        match self.items.get(x as usize) {
            None => None,
            Some(value) => *value,
        }
    }

    /// The number for x, which has a place, if there is one.
    #[inline(always)]
    pub fn at(&self, x: u64) -> Option<u64>
        requires { x < room_of self.now }
        ensures { result ≡ held self.now x }
    {
        self.items[x as usize]
    }

    /// Gives each number up to x a place. Refused for want of memory alone, and never where x has a place already.
    pub fn make_room(&mut self, x: u64) -> Result<(), AllocError>
        ensures same { OnOk result ((y : ℕ) → held self.new y ≡ held self.old y) }
        ensures room { OnOk result (x < room_of self.new) }
        ensures more { OnOk result (room_of self.old ≤ room_of self.new) }
        ensures enough { x < room_of self.old → IsOk result }
    {
        for _ in self.items.len() as u64..x {
            self.items.push(None)?;
        }
        if self.items.len() as u64 <= x {
            self.items.push(None)?;
        }
        Ok(())
    }

    /// Gives x a number. Refused for want of memory alone, and never where x has a place already.
    pub fn set(&mut self, x: u64, value: u64) -> Result<(), AllocError>
        ensures value { OnOk result ((y : ℕ) → held self.new y ≡ (if x == y then Some value else held self.old y)) }
        ensures more { OnOk result (room_of self.old ≤ room_of self.new) }
        ensures enough { x < room_of self.old → IsOk result }
    {
        self.make_room(x)?;
        self.put(x, value);
        Ok(())
    }

    /// Gives x, which has a place, a number. It takes no memory.
    #[inline(always)]
    pub fn put(&mut self, x: u64, value: u64)
        requires { x < room_of self.old }
        ensures value { (y : ℕ) → held self.new y ≡ (if x == y then Some value else held self.old y) }
        ensures room { room_of self.new ≡ room_of self.old }
    {
        self.items[x as usize] = Some(value);
    }

    /// Takes every number out, and keeps the room.
    pub fn clear(&mut self)
        ensures { (x : ℕ) → held self.new x ≡ None }
    {
        self.items.clear();
    }
}

/// Numbers by two numbers.
#[derive(Drop)]
pub struct PairTable {
    alloc: Global,
    rows: Vec<Table>,
}

impl PairTable {
    /// A table with no number. It takes no memory.
    pub fn new(alloc: Global) -> PairTable
        ensures { (x : ℕ) (y : ℕ) → held_pair result x y ≡ None }
    {
        PairTable {
            alloc,
            rows: Vec::new(alloc),
        }
    }

    /// The number for x and y, if there is one.
    pub fn get(&self, x: u64, y: u64) -> Option<u64>
        ensures { result ≡ held_pair self.now x y }
    {
        match self.rows.get(x as usize) {
            None => None,
            Some(row) => row.get(y),
        }
    }

    /// Gives each first number up to x a row.
    fn make_room(&mut self, x: u64) -> Result<(), AllocError>
        ensures same { OnOk result ((m : ℕ) (n : ℕ) → held_pair self.new m n ≡ held_pair self.old m n) }
        ensures room { OnOk result (x < length self.new.rows.items) }
    {
        for _ in self.rows.len() as u64..x {
            self.rows.push(Table::new(self.alloc))?;
        }
        if self.rows.len() as u64 <= x {
            self.rows.push(Table::new(self.alloc))?;
        }
        Ok(())
    }

    /// Gives x and y a number. Refused for want of memory alone.
    pub fn set(&mut self, x: u64, y: u64, value: u64) -> Result<(), AllocError>
        ensures { OnOk result ((m : ℕ) (n : ℕ)
            → held_pair self.new m n ≡ (if (x == m) && (y == n) then Some value else held_pair self.old m n)) }
    {
        self.make_room(x)?;
        self.rows[x as usize].set(y, value)
    }
}
