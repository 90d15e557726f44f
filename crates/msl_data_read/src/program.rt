// A data program while it is read.

ghost use Rattle.std.specs.Prelude.{◌≡◌, ◌<◌, ◌≤◌, length, slice_index_or, OnOk, IfOk};
ghost use Rattle.msl_base.specs.Names.{place_among};
ghost use Rattle.msl_program.specs.declared.shape.Shape.TheVariants as shape;
ghost use Rattle.msl_grammar.specs.Uses.{ArePaired};
ghost use Rattle.msl_program.specs.Programs.{no_lines, with_line, line_names};

use msl_base::{Name, NoMemory, position_named};
use msl_program::{DataLine, DataLines, DataStep, Shape};
use sqlite_items::Items;
use std::alloc::Global;
use std::marker::Model;

// The lines so far, and what each of them is.
#[derive(Drop)]
pub struct Program {
    pub lines: DataLines,
    pub shapes: Items<Shape>,
}

impl Model for Program {
    ghost use Rattle.msl_program.specs.Programs as parts;

    ghost Value = { parts.Program };

    ghost view = { λ p. record { lines = p.lines; shapes = p.shapes } };
}

impl Program {
    // No lines. Takes no memory.
    pub fn new(alloc: Global) -> Program
        ensures { result ≡ no_lines }
    {
        Program {
            lines: DataLines::new(alloc),
            shapes: Items::new(alloc),
        }
    }

    // Appends a line.
    pub fn add(&mut self, name: Name, step: DataStep, shape: Shape) -> Result<(), NoMemory>
        ensures { OnOk result (self.new ≡ with_line self.old name step shape) }
    {
        self.lines.push(DataLine { name, step })?;
        self.shapes.push(shape)?;
        Ok(())
    }

    // How many lines there are.
    pub fn len(&self) -> usize
        ensures { result ≡ length self.now.lines }
    {
        self.lines.len()
    }

    // The place of the line of a name.
    pub fn find(&self, name: &str) -> Option<u32>
        requires { ArePaired self.now }
        ensures { result ≡ place_among (line_names self.now) name.now }
    {
        let at = position_named(self.lines.as_slice(), name)?;
        Some(at as u32)
    }

    // What the line at a place is.
    pub fn shape(&self, line: u32) -> Shape
        requires program { ArePaired self.now }
        requires within { line < length self.now.lines }
        ensures { result ≡ slice_index_or self.now.shapes line shape.Number }
    {
        self.shapes.as_slice()[line as usize]
    }
}
