// A text that grows by words, numbers and blanks.

ghost use Rattle.std.specs.Prelude.{◌≡◌, [], ◌∷◌, ◌++◌, map, codes, OnOk};
ghost use Rattle.msl_fun_print.specs.FunText.{mark};
ghost use Rattle.msl_script_print.specs.ScriptText.{indented, integer, line_end, natural, spaced};
ghost use Rattle.msl_script_print.specs.Words.{Prints, opening, word_bits};

use itoa::Buffer;
use msl_base::{ListOf, Name, NoMemory};
use std::alloc::Global;
use std::marker::Model;

// What stands between two blanks.
#[derive(Clone, Copy)]
pub enum Word<'a> {
    Text(&'a str),
    Number(u32),
    Integer(i64),
}

// The text so far.
#[derive(Drop)]
pub struct Printer {
    text: Vec<u8>,
}

impl Model for Printer {
    ghost use Rattle.std.specs.Prelude.{ℕ, List};

    ghost Value = { List ℕ };

    ghost view = { λ p. p.text.items };
}

impl Printer {
    pub fn new(alloc: Global) -> Printer
        ensures { result ≡ [] }
    {
        Printer {
            text: Vec::new(alloc),
        }
    }

    pub fn into_text(self) -> ListOf<u8>
        ensures { result ≡ self }
    {
        ListOf::from_vec(self.text)
    }

    pub fn put(&mut self, text: &[u8]) -> Result<(), NoMemory>
        ensures { OnOk result (self.new ≡ self.old ++ text.now) }
    {
        self.text.extend_from_slice(text)?;
        Ok(())
    }

    pub fn number(&mut self, n: u32) -> Result<(), NoMemory>
        ensures { OnOk result (Prints self.old (natural n) self.new) }
    {
        let mut buffer = Buffer::new();
        self.put(buffer.format(n).as_bytes())
    }

    pub fn integer(&mut self, z: i64) -> Result<(), NoMemory>
        ensures { OnOk result (Prints self.old (integer z) self.new) }
    {
        let mut buffer = Buffer::new();
        self.put(buffer.format(z).as_bytes())
    }

    fn word(&mut self, word: &Word<'_>) -> Result<(), NoMemory>
        ensures { OnOk result (Prints self.old (word_bits word.now) self.new) }
    {
        match word {
            Word::Text(text) => self.put(text.as_bytes()),
            Word::Number(n) => self.number(*n),
            Word::Integer(z) => self.integer(*z),
        }
    }

    // Words with one space between them.
    pub fn words(&mut self, words: &[Word<'_>]) -> Result<(), NoMemory>
        ensures { OnOk result (Prints self.old (spaced (map word_bits words.now)) self.new) }
    {
        let Some((first, others)) = words.split_first() else {
            return Ok(());
        };
        self.word(first)?;
        for word in others {
            self.put(b" ")?;
            self.word(word)?;
        }
        Ok(())
    }

    // Words on a line of their own, up to a semicolon.
    pub fn clause(&mut self, words: &[Word<'_>]) -> Result<(), NoMemory>
        ensures { OnOk result (Prints self.old (indented (spaced (map word_bits words.now) ∷ [])) self.new) }
    {
        self.put(b"  ")?;
        self.words(words)?;
        self.put(b";\n")
    }

    // The first line of a definition.
    pub fn open(&mut self, word: &str, name: &Name) -> Result<(), NoMemory>
        ensures { OnOk result (Prints self.old (opening word.now name.now) self.new) }
    {
        self.put(word.as_bytes())?;
        self.put(b" ")?;
        self.put(name.as_str().as_bytes())?;
        self.put(b" {\n")
    }

    // Its last line.
    pub fn close(&mut self) -> Result<(), NoMemory>
        ensures { OnOk result (Prints self.old (mark (codes "}") ∷ line_end ∷ []) self.new) }
    {
        self.put(b"}\n")
    }
}
