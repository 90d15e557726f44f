ghost use Rattle.std.specs.Prelude.{◌≡◌, ◌==◌, ◌+◌, ◌≤◌, ◌<◌, [], ◌∷◌, ◌++◌, List, ℕ, Bool, OnOk, length};
ghost use Rattle.msl_io.specs.Lines.{HasNoLf, most_bytes, reading, row};
ghost use Rattle.msl_io.specs.Taking.{IsLineEnd, HasTaken, TakesPart, PartFits, Gives, IsOfText};

use crate::Line;
use crate::chunk::Chunk;
use crate::numeral::Word;
use crate::words::Words;
use msl_base::limits::MOST_LINE_BYTES;
use msl_base::{NoMemory, Rec};
use std::alloc::Global;

/// What is taken of a line out of a chunk.
pub enum Part {
    /// All the chunk.
    More,
    /// The rest of the line, and its LF.
    Ended,
    /// The line has more bytes than it may have.
    Long,
    /// Memory ran out.
    NoMemory,
}

/// A line that is being read.
#[derive(Drop)]
pub struct Text {
    words: Words,
    word: Word,
    // whether a CR is its last byte so far
    cr: bool,
    len: usize,
}

impl Text {
    /// The line with no byte. The memory of `room` is for its numbers; no other is taken.
    pub fn new(alloc: Global, room: Rec) -> Text
        ensures taken { HasTaken [] result }
        ensures len { result.len ≡ 0 }
    {
        Text {
            words: Words::new(alloc, room),
            word: Word::none(),
            cr: false,
            len: 0,
        }
    }

    /// Whether the line has no byte so far.
    pub fn is_empty(&self) -> bool
        ensures { result ≡ (self.now.len == 0) }
    {
        self.len == 0
    }

    /// Takes the line's bytes that stand in a chunk, its LF too.
    pub fn take_from(&mut self, chunk: &mut Chunk) -> Part
        requires some { 0 < length chunk.old }
        requires room { self.old.len ≤ most_bytes }
        ensures part { (taken : List ℕ) → HasTaken taken self.old → TakesPart result taken chunk.old self.new chunk.new }
        ensures fits { PartFits result self.old.len self.new.len }
        ensures kept { length chunk.new ≤ length chunk.old }
    {
        let bytes = chunk.as_slice();
        let end = line_end(bytes);
        if end > MOST_LINE_BYTES - self.len {
            return Part::Long;
        }
        let ended = end < bytes.len();
        match self.take(&bytes[..end]) {
            Ok(()) => (),
            Err(NoMemory) => return Part::NoMemory,
        }
        if ended {
            chunk.advance(end + 1);
            Part::Ended
        } else {
            chunk.advance(end);
            Part::More
        }
    }

    // Takes bytes of the line.
    fn take(&mut self, bytes: &[u8]) -> Result<(), NoMemory>
        requires room { self.old.len + length bytes.now ≤ most_bytes }
        ensures taken { OnOk result ((taken : List ℕ) → HasTaken taken self.old → HasNoLf bytes.now → HasTaken (taken ++ bytes.now) self.new) }
        ensures len { OnOk result (self.new.len ≡ self.old.len + length bytes.now) }
    {
        let Some((last, front)) = bytes.split_last() else {
            return Ok(());
        };
        if self.cr {
            self.words.refuse();
        }
        self.cr = *last == b'\r';
        self.len += bytes.len();
        let text = if self.cr { front } else { bytes };
        self.word = self.words.take(self.word, text)?;
        Ok(())
    }

    /// The line, which has this number and no more bytes.
    #[inline(always)]
    pub fn finish(self, n: u32) -> Line
        ensures line { (taken : List ℕ) (ended : Bool) → HasTaken taken self → length taken ≤ most_bytes → Gives (reading n (row taken ended)) result }
        ensures kind { IsOfText result }
    {
        let Text {
            mut words,
            word,
            ..
        } = self;
        match words.close(word) {
            Ok(()) => words.into_line(n),
            Err(NoMemory) => Line::NoMemory,
        }
    }
}

// How many bytes stand before the first LF, or all.
#[inline(never)]
fn line_end(bytes: &[u8]) -> usize
    ensures { IsLineEnd bytes.now result }
{
    for (i, &b) in bytes.iter().enumerate() {
        if b == b'\n' {
            return i;
        }
    }
    bytes.len()
}
