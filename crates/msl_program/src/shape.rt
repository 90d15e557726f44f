//! What the lines of a data program are, and what they have to be where they are named.

ghost use Rattle.std.specs.Prelude.{◌≡◌};
ghost use Rattle.msl_program.specs.Programs.{same_shape, suits, blocks_of, given, turned};

/// What a line of a data program is.
#[derive(Clone, Copy)]
pub enum Shape {
    /// An array in so many blocks.
    Array(u32),
    /// A matrix with its rows and columns, and then with those of its grid of blocks.
    Matrix(u32, u32, u32, u32),
    /// One number.
    Number,
}

/// What a line has to be where it is named.
#[derive(Clone, Copy)]
pub enum Need {
    /// Any line.
    Any,
    /// An array.
    Array,
    /// A matrix.
    Matrix,
    /// An array or a matrix.
    Container,
    /// One number.
    Number,
    /// An array or a matrix of this shape.
    Like(Shape),
}

impl Shape {
    // Whether both are arrays of equal blocks, or matrices of equal numbers.
    fn is_like(self, other: Shape) -> bool
        ensures { result ≡ same_shape self other }
    {
        match (self, other) {
            (Shape::Array(a), Shape::Array(b)) => a == b,
            (Shape::Matrix(r, c, p, q), Shape::Matrix(r2, c2, p2, q2)) => {
                r == r2 && c == c2 && p == p2 && q == q2
            }
            _ => false,
        }
    }

    /// How many blocks an array has.
    pub fn blocks(self) -> u32
        ensures { result ≡ blocks_of self }
    {
        match self {
            Shape::Array(blocks) => blocks,
            Shape::Matrix(..) | Shape::Number => 0,
        }
    }

    /// How many arguments a step gives that works on such a line.
    pub fn given(self, for_array: usize, for_matrix: usize) -> usize
        ensures { result ≡ given for_array for_matrix self }
    {
        match self {
            Shape::Matrix(..) => for_matrix,
            Shape::Array(_) | Shape::Number => for_array,
        }
    }

    /// With rows and columns exchanged.
    pub fn turned(self) -> Shape
        ensures { result ≡ turned self }
    {
        match self {
            Shape::Matrix(rows, cols, grid_rows, grid_cols) => {
                Shape::Matrix(cols, rows, grid_cols, grid_rows)
            }
            other => other,
        }
    }
}

impl Need {
    /// Whether a line is what is needed.
    pub fn suits(self, shape: Shape) -> bool
        ensures { result ≡ suits self shape }
    {
        match self {
            Need::Any => true,
            Need::Array => matches!(shape, Shape::Array(_)),
            Need::Matrix => matches!(shape, Shape::Matrix(..)),
            Need::Container => matches!(shape, Shape::Array(_) | Shape::Matrix(..)),
            Need::Number => matches!(shape, Shape::Number),
            Need::Like(other) => other.is_like(shape),
        }
    }
}
