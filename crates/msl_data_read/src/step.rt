// Steps of a data program.

ghost use Rattle.std.specs.Prelude.{◌≡◌, ◌≤◌, length, IfOk};
ghost use Rattle.msl_program.specs.declared.data.DataStep.TheVariants as step;
ghost use Rattle.msl_program.specs.declared.shape.Need.TheVariants as need;
ghost use Rattle.msl_grammar.specs.Following.{IsRead};
ghost use Rattle.msl_grammar.specs.Uses.{use_spec};
ghost use Rattle.msl_grammar.specs.ScriptGrammar as grammar;

use crate::operator::operator;
use crate::scope::Scope;
use msl_base::limits::{MOST_BLOCKS, MOST_NUMBERS};
use msl_grammar::token::{number, quoted};
use msl_lex::{Kind, TokenKind};
use msl_program::shape::Need;
use msl_program::{DataStep, Shape, UseSpec};
use msl_read::{Cursor, ReadFault};

// The greatest length of a record, and the greatest place in one.
const RECORD: u32 = MOST_NUMBERS as u32;

// A step, and what its line is.
type Step = (DataStep, Shape);

impl Scope<'_> {
    // A step.
    pub fn step(&self, c: &mut Cursor<'_>) -> Result<Step, ReadFault>
        ensures read { IsRead c.old (grammar.a_step self.now.known.now self.now.program.now) c.new result }
        ensures shorter { length c.new ≤ length c.old }
    {
        if c.take("array") {
            array(c)
        } else if c.take("matrix") {
            matrix(c)
        } else if c.take("map") {
            self.map(c)
        } else if c.take("mapIndex") {
            self.map_index(c)
        } else if c.take("zip") {
            self.zip(c)
        } else if c.take("zipIndex") {
            self.zip_index(c)
        } else if c.take("fold") {
            self.fold(c)
        } else if c.take("scan") {
            self.scan(c)
        } else if c.take("foldl") {
            self.foldl(c)
        } else if c.take("permutePartition") {
            self.permute_partition(c)
        } else if c.take("permute") {
            self.permute(c)
        } else if c.take("broadcastPartition") {
            self.broadcast(c)
        } else if c.take("rotateRows") {
            self.rotate_rows(c)
        } else if c.take("rotateCols") {
            self.rotate_cols(c)
        } else if c.take("transpose") {
            self.transpose(c)
        } else {
            Err(c.unexpected())
        }
    }

    fn map(&self, c: &mut Cursor<'_>) -> Result<Step, ReadFault>
        ensures read { IsRead c.old (grammar.with_one self.now.known.now self.now.program.now need.Container 1 1 step.Map) c.new result }
        ensures shorter { length c.new ≤ length c.old }
    {
        let (used, (line, shape)) = self.with_one(c, Need::Container, 1, 1)?;
        Ok((DataStep::Map(used, line), shape))
    }

    fn map_index(&self, c: &mut Cursor<'_>) -> Result<Step, ReadFault>
        ensures read { IsRead c.old (grammar.with_one self.now.known.now self.now.program.now need.Container 2 3 step.MapIndex) c.new result }
        ensures shorter { length c.new ≤ length c.old }
    {
        let (used, (line, shape)) = self.with_one(c, Need::Container, 2, 3)?;
        Ok((DataStep::MapIndex(used, line), shape))
    }

    fn zip(&self, c: &mut Cursor<'_>) -> Result<Step, ReadFault>
        ensures read { IsRead c.old (grammar.with_two self.now.known.now self.now.program.now 2 2 step.Zip) c.new result }
        ensures shorter { length c.new ≤ length c.old }
    {
        let (used, (line, shape), other) = self.with_two(c, 2, 2)?;
        Ok((DataStep::Zip(used, line, other), shape))
    }

    fn zip_index(&self, c: &mut Cursor<'_>) -> Result<Step, ReadFault>
        ensures read { IsRead c.old (grammar.with_two self.now.known.now self.now.program.now 3 4 step.ZipIndex) c.new result }
        ensures shorter { length c.new ≤ length c.old }
    {
        let (used, (line, shape), other) = self.with_two(c, 3, 4)?;
        Ok((DataStep::ZipIndex(used, line, other), shape))
    }

    fn fold(&self, c: &mut Cursor<'_>) -> Result<Step, ReadFault>
        ensures read { IsRead c.old (grammar.fold_rule self.now.program.now) c.new result }
        ensures shorter { length c.new ≤ length c.old }
    {
        let op = operator(c)?;
        let (line, _) = self.line(c, Need::Container)?;
        Ok((DataStep::Fold(op, line), Shape::Number))
    }

    fn scan(&self, c: &mut Cursor<'_>) -> Result<Step, ReadFault>
        ensures read { IsRead c.old (grammar.scan_rule self.now.program.now) c.new result }
        ensures shorter { length c.new ≤ length c.old }
    {
        let op = operator(c)?;
        let (line, shape) = self.line(c, Need::Array)?;
        Ok((DataStep::Scan(op, line), shape))
    }

    fn foldl(&self, c: &mut Cursor<'_>) -> Result<Step, ReadFault>
        ensures read { IsRead c.old (grammar.foldl_rule self.now.known.now self.now.program.now) c.new result }
        ensures shorter { length c.new ≤ length c.old }
    {
        let used = self.usage(c)?;
        let first = self.arg(c)?;
        let (line, _) = self.container(c, &used, Need::Array, 2, 2)?;
        Ok((DataStep::Foldl(used.spec(), first, line), Shape::Number))
    }

    fn permute_partition(&self, c: &mut Cursor<'_>) -> Result<Step, ReadFault>
        ensures read { IsRead c.old (grammar.with_one self.now.known.now self.now.program.now need.Array 1 1 step.PermutePartition) c.new result }
        ensures shorter { length c.new ≤ length c.old }
    {
        let (used, (line, shape)) = self.with_one(c, Need::Array, 1, 1)?;
        Ok((DataStep::PermutePartition(used, line), shape))
    }

    fn permute(&self, c: &mut Cursor<'_>) -> Result<Step, ReadFault>
        ensures read { IsRead c.old (grammar.with_one self.now.known.now self.now.program.now need.Array 1 1 step.Permute) c.new result }
        ensures shorter { length c.new ≤ length c.old }
    {
        let (used, (line, shape)) = self.with_one(c, Need::Array, 1, 1)?;
        Ok((DataStep::Permute(used, line), shape))
    }

    fn broadcast(&self, c: &mut Cursor<'_>) -> Result<Step, ReadFault>
        ensures read { IsRead c.old (grammar.broadcast_rule self.now.program.now) c.new result }
        ensures shorter { length c.new ≤ length c.old }
    {
        let block = placed_number(c)?;
        let (line, shape) = self.block_of(c, block)?;
        Ok((DataStep::BroadcastPartition(block.0 as u32, line), shape))
    }

    fn rotate_rows(&self, c: &mut Cursor<'_>) -> Result<Step, ReadFault>
        ensures read { IsRead c.old (grammar.with_one self.now.known.now self.now.program.now need.Matrix 1 1 step.RotateRows) c.new result }
        ensures shorter { length c.new ≤ length c.old }
    {
        let (used, (line, shape)) = self.with_one(c, Need::Matrix, 1, 1)?;
        Ok((DataStep::RotateRows(used, line), shape))
    }

    fn rotate_cols(&self, c: &mut Cursor<'_>) -> Result<Step, ReadFault>
        ensures read { IsRead c.old (grammar.with_one self.now.known.now self.now.program.now need.Matrix 1 1 step.RotateCols) c.new result }
        ensures shorter { length c.new ≤ length c.old }
    {
        let (used, (line, shape)) = self.with_one(c, Need::Matrix, 1, 1)?;
        Ok((DataStep::RotateCols(used, line), shape))
    }

    fn transpose(&self, c: &mut Cursor<'_>) -> Result<Step, ReadFault>
        ensures read { IsRead c.old (grammar.transpose_rule self.now.program.now) c.new result }
        ensures shorter { length c.new ≤ length c.old }
    {
        let (line, shape) = self.line(c, Need::Matrix)?;
        Ok((DataStep::Transpose(line), shape.turned()))
    }

    // A function and the line that it works on.
    fn with_one(
        &self,
        c: &mut Cursor<'_>,
        need: Need,
        for_array: usize,
        for_matrix: usize,
    ) -> Result<(UseSpec, (u32, Shape)), ReadFault>
        ensures read { IsRead c.old (λ k. grammar.a_use self.now.known.now self.now.program.now (λ u. grammar.a_container self.now.known.now self.now.program.now u need for_array for_matrix (λ l. k (use_spec u, l)))) c.new result }
        ensures shorter { length c.new ≤ length c.old }
    {
        let used = self.usage(c)?;
        let line = self.container(c, &used, need, for_array, for_matrix)?;
        Ok((used.spec(), line))
    }

    // A function and the two lines that it works on, which are of one shape.
    fn with_two(
        &self,
        c: &mut Cursor<'_>,
        for_array: usize,
        for_matrix: usize,
    ) -> Result<(UseSpec, (u32, Shape), u32), ReadFault>
        ensures read { IsRead c.old (λ k. grammar.a_use self.now.known.now self.now.program.now (λ u. grammar.a_container self.now.known.now self.now.program.now u need.Container for_array for_matrix (λ l. grammar.a_line self.now.program.now (need.Like l.1) (λ o. k (use_spec u, l, o.0))))) c.new result }
        ensures shorter { length c.new ≤ length c.old }
    {
        let (used, line) = self.with_one(c, Need::Container, for_array, for_matrix)?;
        let (other, _) = self.line(c, Need::Like(line.1))?;
        Ok((used, line, other))
    }
}

fn array(c: &mut Cursor<'_>) -> Result<Step, ReadFault>
    ensures read { IsRead c.old grammar.array_rule c.new result }
    ensures shorter { length c.new ≤ length c.old }
{
    let blocks = number(c, 1, MOST_BLOCKS)?;
    maybe_part(c, blocks)
}

// An array of so many blocks, maybe of a part of the record.
fn maybe_part(c: &mut Cursor<'_>, blocks: u32) -> Result<Step, ReadFault>
    ensures read { IsRead c.old (grammar.maybe_part blocks) c.new result }
    ensures shorter { length c.new ≤ length c.old }
{
    if c.take("at") {
        part(c, blocks)
    } else {
        Ok((DataStep::Array(blocks), Shape::Array(blocks)))
    }
}

fn part(c: &mut Cursor<'_>, blocks: u32) -> Result<Step, ReadFault>
    ensures read { IsRead c.old (grammar.part_rule blocks) c.new result }
    ensures shorter { length c.new ≤ length c.old }
{
    let at = number(c, 0, RECORD)?;
    quoted(c, "len")?;
    let len = number(c, 0, RECORD)?;
    Ok((DataStep::ArrayAt { blocks, at, len }, Shape::Array(blocks)))
}

fn matrix(c: &mut Cursor<'_>) -> Result<Step, ReadFault>
    ensures read { IsRead c.old grammar.matrix_rule c.new result }
    ensures shorter { length c.new ≤ length c.old }
{
    let rows = number(c, 1, RECORD)?;
    let cols = size(c, RECORD, rows)?;
    quoted(c, "grid")?;
    let grid_rows = number(c, 1, RECORD)?;
    let grid_cols = size(c, MOST_BLOCKS, grid_rows)?;
    quoted(c, "at")?;
    let at = number(c, 0, RECORD)?;
    Ok((
        DataStep::Matrix {
            rows,
            cols,
            grid_rows,
            grid_cols,
            at,
        },
        Shape::Matrix(rows, cols, grid_rows, grid_cols),
    ))
}

// A size whose product with the one before it is at most this.
fn size(c: &mut Cursor<'_>, most: u32, before: u32) -> Result<u32, ReadFault>
    ensures read { IsRead c.old (grammar.a_size most before) c.new result }
    ensures shorter { length c.new ≤ length c.old }
{
    let TokenKind::Number = c.kind() else {
        return Err(c.unexpected());
    };
    let v = c.number();
    if v < 1 || v > i64::from(RECORD) || i64::from(before) * v > i64::from(most) {
        return Err(c.refusal(Kind::Range));
    }
    c.advance();
    Ok(v as u32)
}

// Any number, with its place.
fn placed_number(c: &mut Cursor<'_>) -> Result<(u64, u32), ReadFault>
    ensures read { IsRead c.old grammar.a_placed_number c.new result }
    ensures shorter { length c.new ≤ length c.old }
{
    let TokenKind::Number = c.kind() else {
        return Err(c.unexpected());
    };
    let number = (c.number() as u64, c.place());
    c.advance();
    Ok(number)
}
