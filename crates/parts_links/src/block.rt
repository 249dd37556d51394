//! One block of cells. Each cell points to the one before and the one after it.
ghost use Rattle.std.specs.Prelude.{◌≡◌, ◌+◌, ◌^◌, ◌<◌, ◌≤◌, length, get_or, IfOk};
ghost use Rattle.parts_links.specs.Rings.{Rings, alone, joined, with_list};
ghost use Rattle.parts_links.specs.Block.{IsOpened};

use crate::cells::{Cells, Deed, Place, allocate, deallocate};
use std::alloc::{AllocError, Global};
use std::marker::Model;

/// A cell: pointers to its neighbours, its own number, and one more than its list, or 0 on none.
#[derive(Clone, Copy)]
pub struct Cell {
    before: *mut Cell,
    after: *mut Cell,
    number: u32,
    list: u32,
}

/// The block of `count` cells. Contracts see the numbers that stand after and before each cell, and its list.
pub struct Block {
    base: Place<Cell>,
    cells: Cells<Cell>,
    deed: Deed<Cell, Global>,
    alloc: Global,
    count: u32,
}

impl Model for Block {
    ghost use Rattle.parts_links.specs.Rings.{Rings, rings_code};
    ghost use Rattle.parts_links.specs.Block.{seen, IsBlock};

    ghost Value = { Rings };

    ghost coded = { rings_code };

    ghost view = { λ b. seen b.base.ptr b.cells.slots };

    ghost invariant = { λ b. IsBlock b.base.ptr b.cells b.deed b.alloc b.count };
}

/// Makes each cell its own neighbour.
fn fill(cells: &mut Cells<Cell>, base: Place<Cell>, count: u32)
    requires { (base.ptr ≡ cells.old.at) × (length cells.old.slots ≡ count) }
    ensures { IsOpened base.ptr cells.new count count }
{
    let mut number = 0;
    while number < count {
        let place = cells.place(base, number as usize);
        let pointer = place.pointer();
        cells.put(
            place,
            Cell {
                before: pointer,
                after: pointer,
                number,
                list: 0,
            },
        );
        number += 1;
    }
}

impl Block {
    /// Each cell is its own neighbour.
    pub(crate) fn open(alloc: Global, count: u32) -> Result<Block, AllocError>
        ensures { IfOk result (λ b. b ≡ alone count) }
    {
        let (base, mut cells, deed) = allocate(&alloc, count as usize)?;
        fill(&mut cells, base, count);
        Ok(Block {
            base,
            cells,
            deed,
            alloc,
            count,
        })
    }

    /// The number of the cell after this one.
    pub(crate) fn after(&self, cell: u32) -> u32
        requires { cell < length self.now.after }
        ensures { result ≡ get_or self.now.after cell 0 }
    {
        let place = self.cells.place(self.base, cell as usize);
        let next = Place::at(self.cells.get(place).after);
        self.cells.get(next).number
    }

    /// The number of the cell before this one.
    pub(crate) fn before(&self, cell: u32) -> u32
        requires { cell < length self.now.after }
        ensures { result ≡ get_or self.now.before cell 0 }
    {
        let place = self.cells.place(self.base, cell as usize);
        let last = Place::at(self.cells.get(place).before);
        self.cells.get(last).number
    }

    pub(crate) fn list(&self, cell: u32) -> u32
        requires { cell < length self.now.list }
        ensures { result ≡ get_or self.now.list cell 0 }
    {
        let place = self.cells.place(self.base, cell as usize);
        self.cells.get(place).list
    }

    /// Makes the neighbours of the cell each other's, and marks it as on no list.
    #[inline(always)]
    pub(crate) fn take_out(&mut self, cell: u32)
        requires { cell < length self.old.after }
        ensures { self.new ≡ with_list cell 0 (joined (get_or self.old.before cell 0) (get_or self.old.after cell 0) self.old) }
    {
        let place = self.cells.place(self.base, cell as usize);
        let Cell { before, after, .. } = *self.cells.get(place);
        let left = Place::at(before);
        let right = Place::at(after);
        let held = *self.cells.get(left);
        self.cells.put(left, Cell { after, ..held });
        let held = *self.cells.get(right);
        self.cells.put(right, Cell { before, ..held });
        let held = *self.cells.get(place);
        self.cells.put(place, Cell { list: 0, ..held });
    }

    /// Puts the cell before the one at `at`, and marks it as this list's.
    #[inline(always)]
    pub(crate) fn put_in(&mut self, at: u32, cell: u32, list: u32)
        requires { (at < length self.old.after) × (cell < length self.old.after) }
        ensures { self.new ≡ with_list cell list (joined cell at (joined (get_or self.old.before at 0) cell self.old)) }
    {
        let place = self.cells.place(self.base, cell as usize);
        let right = self.cells.place(self.base, at as usize);
        let before = self.cells.get(right).before;
        let left = Place::at(before);
        let held = *self.cells.get(left);
        self.cells.put(
            left,
            Cell {
                after: place.pointer(),
                ..held
            },
        );
        self.cells.put(
            place,
            Cell {
                before,
                after: right.pointer(),
                number: cell,
                list,
            },
        );
        let held = *self.cells.get(right);
        self.cells.put(
            right,
            Cell {
                before: place.pointer(),
                ..held
            },
        );
    }
}

impl Drop for Block {
    fn drop(self) {
        let Block {
            base,
            cells,
            deed,
            alloc,
            count,
        } = self;
        deallocate(&alloc, base, count as usize, cells, deed);
    }
}
