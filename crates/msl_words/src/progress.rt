ghost use Rattle.std.specs.Prelude.{◌≡◌, ◌&&◌, not, List, [], ◌∷◌, is_some, Some, None, true, false, if◌then◌else◌};
ghost use Rattle.msl_base.specs.Names.{Text};
ghost use Rattle.msl_words.specs.Words.{command, process_count};
ghost use Rattle.msl_words.specs.Progress.{may_await, takes, takes_after, takes_next};
ghost use Rattle.msl_words.specs.Verbs.{takes_operand};
ghost use Rattle.msl_words.specs.declared.progress.Stage.TheVariants as stage;

use crate::numbers::process_count;
use crate::verbs::Verb;
use msl_base::Name;

/// How far an option is read.
#[derive(Clone, Copy, Debug, PartialEq, Eq)]
pub(crate) enum Stage {
    Absent,
    Awaited,
    Given,
}

/// What the words so far gave.
#[derive(Clone, Copy, Debug, PartialEq, Eq)]
pub(crate) struct Progress {
    operand: bool,
    processes: Stage,
}

impl Progress {
    // Before any word.
    const START: Progress = Progress {
        operand: false,
        processes: Stage::Absent,
    };

    // What is given with one more word, if it may follow.
    fn with_word(self, verb: Verb, word: &str) -> Option<Progress>
        ensures { (rest : List Text) → takes verb self (word.now ∷ rest) ≡ takes_next verb result rest }
    {
        match self.processes {
            Stage::Awaited => self.with_value(word),
            _ if self.may_await(verb, word) => Some(Progress {
                processes: Stage::Awaited,
                ..self
            }),
            _ => self.with_operand(verb, word),
        }
    }

    // Whether the word is an option that may stand here.
    fn may_await(self, verb: Verb, word: &str) -> bool
        ensures { result ≡ may_await verb self.processes word.now }
    {
        match self.processes {
            Stage::Absent => word == "-p" && verb.takes_processes(),
            Stage::Awaited | Stage::Given => false,
        }
    }

    fn with_value(self, word: &str) -> Option<Progress>
        ensures { result ≡ (if is_some (process_count word.now) then Some (record self { processes = stage.Given }) else None) }
    {
        if process_count(word).is_some() {
            Some(Progress {
                processes: Stage::Given,
                ..self
            })
        } else {
            None
        }
    }

    fn with_operand(self, verb: Verb, word: &str) -> Option<Progress>
        ensures { result ≡ (if not self.operand && takes_operand verb word.now then Some (record self { operand = true }) else None) }
    {
        if !self.operand && verb.takes_operand(word) {
            Some(Progress {
                operand: true,
                ..self
            })
        } else {
            None
        }
    }

    // Whether no word has to follow.
    fn is_complete(self, verb: Verb) -> bool
        ensures { result ≡ takes verb self [] }
    {
        self.operand && self.processes != Stage::Awaited
    }
}

/// Whether the words are a command.
pub(crate) fn is_command(words: &[Name]) -> bool
    ensures { result ≡ is_some (command words.now) }
{
    let [first, rest @ ..] = words else {
        return false;
    };
    let Some(verb) = Verb::of(first.as_str()) else {
        return false;
    };
    may_follow(verb, rest)
}

// Whether these words may follow the verb.
fn may_follow(verb: Verb, words: &[Name]) -> bool
    ensures { result ≡ takes_after verb false stage.Absent words.now }
{
    match progress_over(verb, words) {
        Some(progress) => progress.is_complete(verb),
        None => false,
    }
}

// What the words give, if each may follow the ones before it.
fn progress_over(verb: Verb, words: &[Name]) -> Option<Progress>
    ensures { takes_next verb result [] ≡ takes_after verb false stage.Absent words.now }
{
    let mut progress = Progress::START;
    for word in words {
        progress = progress.with_word(verb, word.as_str())?;
    }
    Some(progress)
}
