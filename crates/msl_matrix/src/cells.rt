ghost use Rattle.std.specs.Prelude.{length};
ghost use Rattle.msl_lists.specs.Whole.{at_stage, function_of};
ghost use Rattle.msl_local.specs.Outcomes.{ComesTo};
ghost use Rattle.msl_local.specs.Places.{Takes};

use crate::matrix::DistMatrix;
use msl_base::Halt;
use msl_fun::Use;
use msl_local::{Inputs, Window, of_stage};

// What a function takes at each place of a matrix, or of two of the same shape, behind the arguments that it is given
// before. Rows and columns come by the windows of the blocks.
#[derive(Clone, Copy)]
pub enum Cells<'a> {
    // The element.
    Map(&'a DistMatrix),
    // The row, the column and the element.
    MapIndex(&'a DistMatrix, &'a [Window]),
    // The elements of both.
    Zip(&'a DistMatrix, &'a DistMatrix),
    // The row, the column and the elements of both.
    ZipIndex(&'a DistMatrix, &'a DistMatrix, &'a [Window]),
}

impl Cells<'_> {
    ghost use Rattle.std.specs.Prelude.{◌≡◌};
    ghost use Rattle.msl_matrix.specs.Cells.{first, AreInputs};

    // The first matrix.
    pub fn first(&self) -> &DistMatrix
        ensures { result.now ≡ first self.now }
    {
        match *self {
            Cells::Map(a) | Cells::MapIndex(a, _) | Cells::Zip(a, _) | Cells::ZipIndex(a, _, _) =>
                a,
        }
    }

    // The same block by block.
    pub fn inputs(&self) -> Inputs<'_, '_>
        ensures { AreInputs self.now result }
    {
        match *self {
            Cells::Map(a) => Inputs::Map(a.blocks()),
            Cells::MapIndex(a, w) => Inputs::MapCell(a.blocks(), w),
            Cells::Zip(a, c) => Inputs::Zip(a.blocks(), c.blocks()),
            Cells::ZipIndex(a, c, w) => Inputs::ZipCell(a.blocks(), c.blocks(), w),
        }
    }
}

// What a function gives for these numbers, behind its given arguments.
pub fn apply(u: &Use<'_>, stage: u32, numbers: &[i64]) -> Result<i64, Halt>
    requires { Takes u.now (length numbers.now) }
    ensures { ComesTo (at_stage stage (function_of u.now numbers.now)) result }
{
    let mut out = [0];
    match u.eval(numbers, &mut out) {
        Ok(_) => Ok(out[0]),
        Err(e) => Err(Halt::Fault(of_stage(e, stage))),
    }
}
