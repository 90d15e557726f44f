//! Worked examples of what bytes read as and of the text of records. Each function is empty, and its contract is the
//! examples.

ghost use Rattle.std.specs.Prelude.{◌≡◌, ◌<◌, ℕ, ℤ, pos, negsuc, List, [], ◌∷◌, length, codes, Some, None, Err};
ghost use Rattle.msl_base.specs.declared.fault.Fault.TheVariants.{BadRecord, LongLine, WideRecord, ManyLines};
ghost use Rattle.msl_base.specs.Streams.{stream, done, failed, unread};
ghost use Rattle.msl_io.specs.Lines.{Row, rows_of, reading, record_of, stream_of, open_line, reads, part, most_bytes, most_numbers};
ghost use Rattle.msl_io.specs.Text.{text};

/// Lines, and the records that they are.
pub fn records()
    ensures none { reads [] ≡ stream [] done }
    ensures signs { reads (codes "+007 \r\n5") ≡ stream ((pos 7 ∷ []) ∷ (pos 5 ∷ []) ∷ []) done }
    ensures blanks { reads (codes " \t-0  1\t\n") ≡ stream ((pos 0 ∷ pos 1 ∷ []) ∷ []) done }
    ensures empty { reads (codes "\n") ≡ stream ([] ∷ []) done }
    ensures tab { reads (codes "\t\n") ≡ stream ([] ∷ []) done }
    ensures cr { reads (codes "1\n\r") ≡ stream ((pos 1 ∷ []) ∷ [] ∷ []) done }
    ensures greatest { reads (codes "9223372036854775807") ≡ stream ((pos 9223372036854775807 ∷ []) ∷ []) done }
    ensures least { reads (codes "-9223372036854775808") ≡ stream ((negsuc 9223372036854775807 ∷ []) ∷ []) done }
{}

/// A word that is no number refuses its line, and no line behind it is read.
pub fn bad_records()
    ensures letter { reads (codes "12 x\n") ≡ stream [] (failed (BadRecord 1)) }
    ensures second { reads (codes "4\n--1\n5\n") ≡ stream ((pos 4 ∷ []) ∷ []) (failed (BadRecord 2)) }
    ensures sign { reads (codes "+\n") ≡ stream [] (failed (BadRecord 1)) }
    ensures cr { reads (codes "1\r\r\n") ≡ stream [] (failed (BadRecord 1)) }
    ensures great { reads (codes "9223372036854775808") ≡ stream [] (failed (BadRecord 1)) }
    ensures below { reads (codes "-9223372036854775809") ≡ stream [] (failed (BadRecord 1)) }
{}

/// In the beginning of an input, a line that no LF ends may go on. It is no record, and refused only where it is too
/// long already.
pub fn beginnings()
    ensures open { part (codes "3\n4") ≡ stream ((pos 3 ∷ []) ∷ []) unread }
    ensures unrefused { part (codes "3\nx") ≡ stream ((pos 3 ∷ []) ∷ []) unread }
    ensures whole { part (codes "3\n4\n") ≡ stream ((pos 3 ∷ []) ∷ (pos 4 ∷ []) ∷ []) unread }
    ensures refused { part (codes "x\n4") ≡ stream [] (failed (BadRecord 1)) }
    ensures long { (n : ℕ) (bytes : List ℕ) → most_bytes < length bytes → open_line n bytes ≡ failed (LongLine n) }
{}

/// Too many bytes in a line, words in a line, or lines. A word that is no number counts before too many words.
pub fn limits()
    ensures long { (n : ℕ) (line : Row) → most_bytes < length line.bytes → reading n line ≡ Err (LongLine n) }
    ensures bad { (n : ℕ) → record_of n None ≡ Err (BadRecord n) }
    ensures wide { (n : ℕ) (numbers : List ℤ) → most_numbers < length numbers → record_of n (Some numbers) ≡ Err (WideRecord n) }
    ensures within { stream_of 1 1 (rows_of (codes "7\n")) ≡ stream ((pos 7 ∷ []) ∷ []) done }
    ensures many { stream_of 1 1 (rows_of (codes "7\nx")) ≡ stream ((pos 7 ∷ []) ∷ []) (failed ManyLines) }
{}

/// Records, and their text.
pub fn texts()
    ensures none { text [] ≡ [] }
    ensures some { text ((negsuc 3 ∷ pos 9 ∷ []) ∷ [] ∷ (pos 0 ∷ []) ∷ []) ≡ codes "-4 9\n\n0\n" }
{}
