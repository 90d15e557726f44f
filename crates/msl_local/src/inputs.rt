ghost use Rattle.std.specs.Prelude.{◌≡◌, ◌+◌, ◌/◌, ◌%◌, ◌<◌, ◌≤◌, ◌^◌, All, length, map, pos, slice_index_or};
ghost use Rattle.msl_lists.specs.Whole.{at};
ghost use Rattle.msl_local.specs.declared.inputs.Window.{Window};
ghost use Rattle.msl_local.specs.Windows.{area, begins, cols, rows, wide};

/// Rows and columns of a matrix, from the first up to the second.
#[derive(Clone, Copy)]
pub struct Window {
    pub above: usize,
    pub below: usize,
    pub before: usize,
    pub behind: usize,
}

impl Window {
    // The row and the column of place `k`, row by row.
    pub(crate) fn cell(&self, k: usize) -> (i64, i64)
        requires rows { self.now.below ≤ 2 ^ 60 }
        requires cols { self.now.behind ≤ 2 ^ 60 }
        requires within { k < area self.now }
        ensures row { result.0 ≡ pos (self.now.above + k / wide self.now) }
        ensures col { result.1 ≡ pos (self.now.before + k % wide self.now) }
    {
        let wide = self.behind - self.before;
        (
            (self.above + k / wide) as i64,
            (self.before + k % wide) as i64,
        )
    }
}

/// The row and the column of place `k` of window `m`.
pub fn cell(windows: &[Window], m: usize, k: usize) -> (i64, i64)
    requires part { m < length windows.now }
    requires inside { k < slice_index_or (map area windows.now) m 0 }
    requires rows { All (λ (w : Window). w.below ≤ 2 ^ 60) windows.now }
    requires cols { All (λ (w : Window). w.behind ≤ 2 ^ 60) windows.now }
    ensures row { result.0 ≡ at (rows windows.now) (begins windows.now m + k) }
    ensures col { result.1 ≡ at (cols windows.now) (begins windows.now m + k) }
{
    windows[m].cell(k)
}

/// What a function takes at each place, behind the arguments that it is given before. The places lie in parts, one for
/// each member, and the two lists of a zip in parts of the same lengths.
#[derive(Clone, Copy)]
pub enum Inputs<'a, 'c> {
    /// The element.
    Map(&'a [Vec<i64>]),
    /// The place and the element.
    MapIndex(&'a [Vec<i64>]),
    /// The elements of both.
    Zip(&'a [Vec<i64>], &'c [Vec<i64>]),
    /// The place and the elements of both.
    ZipIndex(&'a [Vec<i64>], &'c [Vec<i64>]),
    /// The place alone.
    Place(&'a [Vec<i64>]),
    /// The row, the column and the element, where each part is a window of a matrix, row by row.
    MapCell(&'a [Vec<i64>], &'c [Window]),
    /// The row, the column and the elements of both.
    ZipCell(&'a [Vec<i64>], &'c [Vec<i64>], &'c [Window]),
}

impl Inputs<'_, '_> {
    ghost use Rattle.std.specs.Prelude.{◌≡◌};
    ghost use Rattle.msl_local.specs.Places.{parts_of};

    /// The parts in which the places lie.
    pub fn parts(&self) -> &[Vec<i64>]
        ensures { result.now ≡ parts_of self.now }
    {
        match *self {
            Inputs::Map(a)
            | Inputs::MapIndex(a)
            | Inputs::Zip(a, _)
            | Inputs::ZipIndex(a, _)
            | Inputs::Place(a)
            | Inputs::MapCell(a, _)
            | Inputs::ZipCell(a, _, _) => a,
        }
    }
}
