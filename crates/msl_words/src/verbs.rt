ghost use Rattle.std.specs.Prelude.{◌≡◌};
ghost use Rattle.msl_words.specs.Verbs.{takes_operand, takes_processes, word_of};
ghost use Rattle.msl_words.specs.Words.{verb_of};

use crate::numbers::{is_operand, record_count};

/// What the first word asks for.
#[derive(Clone, Copy, Debug, PartialEq, Eq)]
pub enum Verb {
    Seq,
    Rounds,
    Check,
    Demo,
}

impl Verb {
    /// The verb that a word is.
    pub(crate) fn of(word: &str) -> Option<Verb>
        ensures { result ≡ verb_of word.now }
    {
        match word {
            "seq" => Some(Verb::Seq),
            "rounds" => Some(Verb::Rounds),
            "check" => Some(Verb::Check),
            "demo" => Some(Verb::Demo),
            _ => None,
        }
    }

    /// The word of the verb.
    pub(crate) fn word<'a>(self) -> &'a str
        ensures { result.now ≡ word_of self }
    {
        match self {
            Verb::Seq => "seq",
            Verb::Rounds => "rounds",
            Verb::Check => "check",
            Verb::Demo => "demo",
        }
    }

    /// Whether `-p` is an option of the verb.
    pub(crate) fn takes_processes(self) -> bool
        ensures { result ≡ takes_processes self }
    {
        self != Verb::Seq
    }

    /// Whether the word may be the operand of the verb.
    pub(crate) fn takes_operand(self, word: &str) -> bool
        ensures { result ≡ takes_operand self word.now }
    {
        match self {
            Verb::Demo => record_count(word).is_some(),
            Verb::Seq | Verb::Rounds | Verb::Check => is_operand(word),
        }
    }
}
