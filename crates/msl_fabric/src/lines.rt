//! Rows and columns of boxes as lists.

ghost use Rattle.std.specs.Prelude.{◌≡◌, ◌<◌, length, IfOk};
ghost use Rattle.msl_fabric.specs.Grids.{row, column, records};

use crate::Boxes;
use msl_base::{NoMemory, Rec};
use std::alloc::Global;

/// Row `i` becomes the parts, from the last to the first. It takes no memory.
pub fn put_row(boxes: &mut Boxes, i: u32, mut parts: Vec<Rec>)
    requires within { i < boxes.old.n }
    requires each { length parts.items ≡ boxes.old.n }
    ensures parts { row boxes.new i ≡ records parts.items }
    ensures members { boxes.new.n ≡ boxes.old.n }
{
    let mut j = boxes.count();
    while let Some(part) = parts.pop() {
        j -= 1;
        boxes.put(i, j, part);
    }
}

/// Column `j` becomes the parts, from the last to the first. It takes no memory.
pub fn put_column(boxes: &mut Boxes, j: u32, mut parts: Vec<Rec>)
    requires within { j < boxes.old.n }
    requires each { length parts.items ≡ boxes.old.n }
    ensures parts { column boxes.new j ≡ records parts.items }
    ensures members { boxes.new.n ≡ boxes.old.n }
{
    let mut i = boxes.count();
    while let Some(part) = parts.pop() {
        i -= 1;
        boxes.put(i, j, part);
    }
}

/// The records of row `i`. It fails for want of memory alone.
pub fn take_row(alloc: Global, mut boxes: Boxes, i: u32) -> Result<Vec<Rec>, NoMemory>
    requires { i < boxes.n }
    ensures { IfOk result (λ all. records all.items ≡ row boxes i) }
{
    let n = boxes.count();
    let mut all = Vec::with_capacity(alloc, n as usize)?;
    for j in 0..n {
        all.push_reserved(boxes.take(i, j));
    }
    Ok(all)
}

/// The records of column `j`. It fails for want of memory alone.
pub fn take_column(alloc: Global, mut boxes: Boxes, j: u32) -> Result<Vec<Rec>, NoMemory>
    requires { j < boxes.n }
    ensures { IfOk result (λ all. records all.items ≡ column boxes j) }
{
    let n = boxes.count();
    let mut all = Vec::with_capacity(alloc, n as usize)?;
    for i in 0..n {
        all.push_reserved(boxes.take(i, j));
    }
    Ok(all)
}
