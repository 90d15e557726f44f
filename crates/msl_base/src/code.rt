ghost use Rattle.std.specs.Prelude.{◌≡◌, ◌≤◌, ◌^◌};
ghost use Rattle.msl_base.specs.Codes.{AreFields, code_of, Decodes};
ghost use Rattle.msl_base.specs.declared.limits.TheConstants.{MOST_CHILDREN, MOST_STEP_BITS};

use crate::Path;
use crate::limits::MOST_PATH_BITS;

// A leading 1 and no step.
const ROOT_CODE: u64 = 1;

impl Path {
    /// The path as one number: a leading 1, and then each step in a field of `bits` bits. None where the fields have
    /// more than 56 bits. Takes no memory.
    pub fn code(self, bits: u32) -> Option<u64>
        requires least { 1 ≤ bits }
        requires most { bits ≤ MOST_STEP_BITS }
        requires fields { AreFields bits self }
        ensures { result ≡ code_of bits self }
    {
        let steps = self.as_slice();
        if steps.len() as u32 * bits > MOST_PATH_BITS {
            return None;
        }
        let size = field_size(bits);
        let mut code = ROOT_CODE;
        for &step in steps {
            code = code * size + u64::from(step);
        }
        Some(code)
    }

    /// The path with this code, and none where no path has it: in a code the leading 1 stands at a field's border, with
    /// at most 56 bits behind it. Takes no memory.
    pub fn of_code(code: u64, bits: u32) -> Option<Path>
        requires least { 1 ≤ bits }
        requires most { bits ≤ MOST_STEP_BITS }
        ensures { Decodes bits code result }
    {
        if code == ROOT_CODE {
            return Some(Path::root());
        }
        let size = field_size(bits);
        // a leading 1 within a field, or too far to the left
        if code < size || code >> MOST_PATH_BITS > 1 {
            return None;
        }
        let parent = Path::of_code(code / size, bits)?;
        parent.push((code % size) as u8)
    }
}

// How many steps a field tells apart.
fn field_size(bits: u32) -> u64
    requires { bits ≤ MOST_STEP_BITS }
    ensures size { result ≡ 2 ^ bits }
    ensures few { result ≤ MOST_CHILDREN }
{
    1 << bits
}
