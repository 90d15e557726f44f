ghost use Rattle.std.specs.Prelude.{◌≡◌, ◌<◌, ◌≤◌, [], IfOk};
ghost use Rattle.msl_base.specs.declared.limits.TheConstants.{MOST_MEMBERS};
ghost use Rattle.msl_fabric.specs.Grids.{IsWhole, box_at, with_box, empty};

use msl_base::{NoMemory, Rec};
use std::alloc::Global;
use std::marker::Model;
use std::mem;

/// An `n` by `n` grid of records, with `n` from 1 to 64. Seen as `n` and the boxes row by row.
#[derive(Drop)]
pub struct Boxes {
    alloc: Global,
    n: usize,
    boxes: Vec<Rec>,
}

impl Model for Boxes {
    ghost use Rattle.std.specs.Prelude.{◌≡◌, ◌≤◌, ◌*◌, length};
    ghost use Rattle.msl_base.specs.declared.limits.TheConstants.{MOST_MEMBERS};
    ghost use Rattle.msl_fabric.specs.Grids.{Grid, grid, records};

    ghost Value = { Grid };

    ghost view = { λ b. grid b.n (records b.boxes.items) };

    ghost invariant = { λ b. (1 ≤ b.n) × (b.n ≤ MOST_MEMBERS) × (length b.boxes.items ≡ b.n * b.n) };
}

impl Boxes {
    /// Empty boxes. It fails for want of memory alone.
    pub fn new(alloc: Global, n: u32) -> Result<Boxes, NoMemory>
        requires some { 1 ≤ n }
        requires few { n ≤ MOST_MEMBERS }
        ensures { IfOk result (λ b. b ≡ empty n) }
    {
        let side = n as usize;
        let mut boxes = Vec::with_capacity(alloc, side * side)?;
        for _i in 0..side * side {
            boxes.push_reserved(Rec::new(alloc));
        }
        Ok(Boxes {
            alloc,
            n: side,
            boxes,
        })
    }

    /// The number of rows, and of columns.
    pub fn count(&self) -> u32
        ensures count { result ≡ self.now.n }
        ensures some { 1 ≤ result }
        ensures few { result ≤ MOST_MEMBERS }
        ensures whole { IsWhole self.now }
    {
        self.n as u32
    }

    /// Replaces a box. It takes no memory.
    pub fn put(&mut self, i: u32, j: u32, x: Rec)
        requires row { i < self.old.n }
        requires column { j < self.old.n }
        ensures { self.new ≡ with_box self.old i j x.numbers }
    {
        let place = i as usize * self.n + j as usize;
        self.boxes[place] = x;
    }

    /// The box, which is empty then. It takes no memory.
    pub fn take(&mut self, i: u32, j: u32) -> Rec
        requires row { i < self.old.n }
        requires column { j < self.old.n }
        ensures taken { result.numbers ≡ box_at self.old i j }
        ensures rest { self.new ≡ with_box self.old i j [] }
    {
        let place = i as usize * self.n + j as usize;
        mem::replace(&mut self.boxes[place], Rec::new(self.alloc))
    }

    /// Box `(i, j)` where box `(j, i)` was, and the other way round. It moves no record's numbers and takes no memory.
    pub(crate) fn turn(&mut self, i: u32, j: u32)
        requires row { i < self.old.n }
        requires column { j < self.old.n }
        ensures { self.new ≡ with_box (with_box self.old i j (box_at self.old j i)) j i (box_at self.old i j) }
    {
        let there = i as usize * self.n + j as usize;
        let back = j as usize * self.n + i as usize;
        self.boxes.as_mut_slice().swap(there, back);
    }
}
