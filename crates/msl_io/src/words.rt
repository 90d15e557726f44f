ghost use Rattle.std.specs.Prelude.{◌≡◌, [], ◌∷◌, ◌++◌, List, ℕ, true, false, IfOk, OnOk};
ghost use Rattle.std.specs.Char.{is_ascii_digit};
ghost use Rattle.msl_io.specs.declared.numeral.Word.{Word};
ghost use Rattle.msl_io.specs.Lines.{is_blank, words, numbers_of, record_of};
ghost use Rattle.msl_io.specs.Taking.{IsWord, Scanned, Closed, Gives, IsOfText};

use crate::Line;
use crate::numeral::Word;
use msl_base::limits::MOST_NUMBERS;
use msl_base::{NoMemory, Rec};
use std::alloc::Global;

/// The numbers of the whole words of a text. Of a text that is no record's it keeps none.
#[derive(Drop)]
pub struct Words {
    alloc: Global,
    numbers: Rec,
    // at most one more than `MOST_NUMBERS`
    count: usize,
    bad: bool,
}

impl Words {
    /// No words. The memory of `room` is for their numbers; no other is taken.
    pub fn new(alloc: Global, room: Rec) -> Words
        ensures { (word : Word) → IsWord word [] → Scanned [] result word }
    {
        let mut numbers = room;
        numbers.clear();
        Words {
            alloc,
            numbers,
            count: 0,
            bad: false,
        }
    }

    /// Takes more of a text. `word` is the word that may go on; the answer is the one that may then.
    #[inline(always)]
    pub fn take(&mut self, word: Word, text: &[u8]) -> Result<Word, NoMemory>
        ensures { IfOk result (λ next. (before : List ℕ) → Scanned before self.old word → Scanned (before ++ text.now) self.new next) }
    {
        if self.bad {
            return Ok(word);
        }
        let mut word = word;
        let mut rest = text;
        'bytes: loop {
            let (next, digits) = word.with_digits(rest);
            let Some((b, behind)) = rest[digits..].split_first() else {
                return Ok(next);
            };
            word = self.take_other(next, *b)?;
            if self.bad {
                return Ok(word);
            }
            rest = behind;
        }
    }

    // Takes a byte that is no digit.
    fn take_other(&mut self, word: Word, b: u8) -> Result<Word, NoMemory>
        requires { is_ascii_digit b ≡ false }
        ensures { IfOk result (λ next. (before : List ℕ) → Scanned before self.old word → Scanned (before ++ b ∷ []) self.new next) }
    {
        if separates(b) {
            self.close(word)?;
            return Ok(Word::none());
        }
        if word.may_begin_with(b) {
            return Ok(Word::of_sign(b));
        }
        self.refuse();
        Ok(word)
    }

    /// Takes the word that might have gone on as a whole one.
    #[inline(always)]
    pub fn close(&mut self, word: Word) -> Result<(), NoMemory>
        ensures { OnOk result ((text : List ℕ) → Scanned text self.old word → Closed text self.new) }
    {
        if !word.has_begun() {
            return Ok(());
        }
        match word.value() {
            None => self.refuse(),
            Some(x) => {
                if self.count < MOST_NUMBERS {
                    self.numbers.push(x)?;
                    self.count += 1;
                } else {
                    self.numbers = Rec::new(self.alloc);
                    self.count = MOST_NUMBERS + 1;
                }
            }
        }
        Ok(())
    }

    /// The line of this number whose text this was.
    #[inline(always)]
    pub fn into_line(self, n: u32) -> Line
        ensures line { (text : List ℕ) → Closed text self → Gives (record_of n (numbers_of (words text))) result }
        ensures kind { IsOfText result }
    {
        if self.bad {
            Line::BadRecord(n)
        } else if self.count > MOST_NUMBERS {
            Line::WideRecord(n)
        } else {
            Line::Rec(self.numbers)
        }
    }

    /// Takes a byte that no word has, so that the text is no record's.
    pub fn refuse(&mut self)
        ensures { self.new.bad ≡ true }
    {
        self.numbers = Rec::new(self.alloc);
        self.bad = true;
    }
}

// Whether a byte stands between words.
fn separates(b: u8) -> bool
    ensures { result ≡ is_blank b }
{
    b == b' ' || b == b'\t'
}
