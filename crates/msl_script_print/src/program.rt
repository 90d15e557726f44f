// The text of data programs.

ghost use Rattle.std.specs.Prelude.{[], ◌∷◌, OnOk};
ghost use Rattle.msl_fun.specs.Checks.{names_of};
ghost use Rattle.msl_fun_print.specs.FunText.{named};
ghost use Rattle.msl_program.specs.declared.data.DataStep.TheVariants as step;
ghost use Rattle.msl_script_print.specs.ScriptText.{arg_bits, args_bits, data_bits, indented, line_bits, name_at, op_bits, spaced, step_bits, use_bits};
ghost use Rattle.msl_script_print.specs.Words.{Prints, names_in};

use crate::item::name_at;
use crate::printer::{Printer, Word};
use msl_base::NoMemory;
use msl_fun::Fun;
use msl_ops::{Op, op_table};
use msl_program::{Arg, DataLine, DataProg, DataStep, UseSpec};

impl Printer {
    pub fn data(&mut self, funs: &[Fun], d: &DataProg) -> Result<(), NoMemory>
        ensures { OnOk result (Prints self.old (data_bits (names_of funs.now) d.now) self.new) }
    {
        let lines = d.lines.as_slice();
        self.open("data", &d.name)?;
        for line in lines {
            self.line(funs, lines, line)?;
        }
        self.clause(&[Word::Text("give"), Word::Text(name_at(lines, d.give))])?;
        self.close()
    }

    // A line among these.
    fn line(&mut self, funs: &[Fun], lines: &[DataLine], line: &DataLine) -> Result<(), NoMemory>
        ensures { OnOk result (Prints self.old (indented (line_bits (names_of funs.now) (names_in lines.now) line.now ∷ [])) self.new) }
    {
        self.put(b"  ")?;
        self.words(&[Word::Text(line.name.as_str())])?;
        self.put(b" = ")?;
        self.step(funs, lines, &line.step)?;
        self.put(b";\n")
    }

    fn step(&mut self, funs: &[Fun], lines: &[DataLine], step: &DataStep) -> Result<(), NoMemory>
        ensures { OnOk result (Prints self.old (step_bits (names_of funs.now) (names_in lines.now) step.now) self.new) }
    {
        match step {
            DataStep::Array(b) => self.words(&[Word::Text("array"), Word::Number(*b)]),
            DataStep::ArrayAt { blocks, at, len } => self.words(&[
                Word::Text("array"),
                Word::Number(*blocks),
                Word::Text("at"),
                Word::Number(*at),
                Word::Text("len"),
                Word::Number(*len),
            ]),
            DataStep::Matrix {
                rows,
                cols,
                grid_rows,
                grid_cols,
                at,
            } => self.words(&[
                Word::Text("matrix"),
                Word::Number(*rows),
                Word::Number(*cols),
                Word::Text("grid"),
                Word::Number(*grid_rows),
                Word::Number(*grid_cols),
                Word::Text("at"),
                Word::Number(*at),
            ]),
            DataStep::Map(u, l) => self.one("map", funs, lines, u, *l),
            DataStep::MapIndex(u, l) => self.one("mapIndex", funs, lines, u, *l),
            DataStep::Zip(u, l, o) => self.two("zip", funs, lines, u, *l, *o),
            DataStep::ZipIndex(u, l, o) => self.two("zipIndex", funs, lines, u, *l, *o),
            DataStep::Fold(op, l) => self.operation("fold", lines, *op, *l),
            DataStep::Scan(op, l) => self.operation("scan", lines, *op, *l),
            DataStep::Foldl(u, first, l) => self.foldl(funs, lines, u, first, *l),
            DataStep::PermutePartition(u, l) => self.one("permutePartition", funs, lines, u, *l),
            DataStep::Permute(u, l) => self.one("permute", funs, lines, u, *l),
            DataStep::BroadcastPartition(j, l) => self.words(&[
                Word::Text("broadcastPartition"),
                Word::Number(*j),
                Word::Text(name_at(lines, *l)),
            ]),
            DataStep::RotateRows(u, l) => self.one("rotateRows", funs, lines, u, *l),
            DataStep::RotateCols(u, l) => self.one("rotateCols", funs, lines, u, *l),
            DataStep::Transpose(l) => {
                self.words(&[Word::Text("transpose"), Word::Text(name_at(lines, *l))])
            }
        }
    }

    // A function and the line that it works on.
    fn one(
        &mut self,
        word: &str,
        funs: &[Fun],
        lines: &[DataLine],
        u: &UseSpec,
        l: u32,
    ) -> Result<(), NoMemory>
        ensures { OnOk result (Prints self.old (spaced ((named word.now ∷ []) ∷ use_bits (names_of funs.now) (names_in lines.now) u.now ∷ name_at (names_in lines.now) l ∷ [])) self.new) }
    {
        self.words(&[Word::Text(word)])?;
        self.put(b" ")?;
        self.usage(funs, lines, u)?;
        self.put(b" ")?;
        self.named(lines, l)
    }

    // A function and the two lines that it works on.
    fn two(
        &mut self,
        word: &str,
        funs: &[Fun],
        lines: &[DataLine],
        u: &UseSpec,
        l: u32,
        o: u32,
    ) -> Result<(), NoMemory>
        ensures { OnOk result (Prints self.old (spaced ((named word.now ∷ []) ∷ use_bits (names_of funs.now) (names_in lines.now) u.now ∷ name_at (names_in lines.now) l ∷ name_at (names_in lines.now) o ∷ [])) self.new) }
    {
        self.one(word, funs, lines, u, l)?;
        self.put(b" ")?;
        self.named(lines, o)
    }

    fn foldl(
        &mut self,
        funs: &[Fun],
        lines: &[DataLine],
        u: &UseSpec,
        first: &Arg,
        l: u32,
    ) -> Result<(), NoMemory>
        ensures { OnOk result (Prints self.old (step_bits (names_of funs.now) (names_in lines.now) (step.Foldl u.now first.now l)) self.new) }
    {
        self.put(b"foldl ")?;
        self.usage(funs, lines, u)?;
        self.put(b" ")?;
        self.arg(funs, lines, first)?;
        self.put(b" ")?;
        self.named(lines, l)
    }

    // An operator and the line that it works on.
    fn operation(&mut self, word: &str, lines: &[DataLine], op: Op, l: u32) -> Result<(), NoMemory>
        ensures { OnOk result (Prints self.old (spaced ((named word.now ∷ []) ∷ op_bits op ∷ name_at (names_in lines.now) l ∷ [])) self.new) }
    {
        self.words(&[Word::Text(word)])?;
        self.put(b" ")?;
        self.operator(op)?;
        self.put(b" ")?;
        self.named(lines, l)
    }

    // An operator, with its modulus where it needs one.
    fn operator(&mut self, op: Op) -> Result<(), NoMemory>
        ensures { OnOk result (Prints self.old (op_bits op) self.new) }
    {
        let table = op_table();
        self.words(&[Word::Text(table.name(op.kind))])?;
        if op.kind.has_modulus() {
            self.put(b" ")?;
            self.integer(op.modulus)?;
        }
        Ok(())
    }

    // A function, with its arguments in parentheses where it has any.
    fn usage(&mut self, funs: &[Fun], lines: &[DataLine], u: &UseSpec) -> Result<(), NoMemory>
        ensures { OnOk result (Prints self.old (use_bits (names_of funs.now) (names_in lines.now) u.now) self.new) }
    {
        self.named(funs, u.fun)?;
        self.args(funs, lines, u.args.as_slice())
    }

    fn args(&mut self, funs: &[Fun], lines: &[DataLine], args: &[Arg]) -> Result<(), NoMemory>
        ensures { OnOk result (Prints self.old (args_bits (names_of funs.now) (names_in lines.now) args.now) self.new) }
    {
        let Some((first, others)) = args.split_first() else {
            return Ok(());
        };
        self.put(b"(")?;
        self.arg(funs, lines, first)?;
        for arg in others {
            self.put(b", ")?;
            self.arg(funs, lines, arg)?;
        }
        self.put(b")")
    }

    fn arg(&mut self, funs: &[Fun], lines: &[DataLine], arg: &Arg) -> Result<(), NoMemory>
        ensures { OnOk result (Prints self.old (arg_bits (names_of funs.now) (names_in lines.now) arg.now) self.new) }
    {
        match arg {
            Arg::Number(l) => self.named(lines, *l),
            Arg::Lit(z) => self.integer(*z),
        }
    }
}
