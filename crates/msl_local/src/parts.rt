ghost use Rattle.std.specs.Prelude.{◌≡◌, ◌+◌, ◌<◌, ◌≤◌, ◌^◌, All, FitsSigned, length, slice_index_or};
ghost use Rattle.std.specs.Int.{w64};
ghost use Rattle.msl_lists.specs.Whole.{at};
ghost use Rattle.msl_local.specs.Parts.{flat, lengths, start};

/// Where a part begins. The start of part `parts.len()` is how many elements there are.
pub fn start(parts: &[Vec<i64>], m: usize) -> usize
    requires few { length (flat parts.now) ≤ 2 ^ 60 }
    requires within { m ≤ length parts.now }
    ensures start { result ≡ start parts.now m }
{
    let mut total = 0;
    for k in 0..m {
        total += parts[k].len();
    }
    total
}

/// Element `k` of a part.
pub fn element(parts: &[Vec<i64>], m: usize, k: usize) -> i64
    requires part { m < length parts.now }
    requires inside { k < slice_index_or (lengths parts.now) m 0 }
    ensures { result ≡ at (flat parts.now) (start parts.now m + k) }
{
    parts[m][k]
}

/// Each number is one of 64 signed bits. The loops have no effect: that the numbers are read is what makes it known.
pub fn all_fit(parts: &[Vec<i64>])
    ensures { All (FitsSigned w64) (flat parts.now) }
{
    for part in parts {
        part_fits(part.as_slice());
    }
}

fn part_fits(part: &[i64])
    ensures { All (FitsSigned w64) part.now }
{
    for x in part {
        let _number = *x;
    }
}
