//! Laws of the text of records. Each function here is empty, and its contract is the law.

ghost use Rattle.msl_io_laws.specs.RoundTrip.{TextReadsBack, TextBeginsSo, TextIsOfOne};

/// The text of at most 4,294,967,295 records, each of at most 1,048,576 numbers of 64 bits, reads as these records, whole
/// or, where more may follow, as a beginning. No line of such a text is too long.
pub fn text_reads_back()
    ensures whole { TextReadsBack }
    ensures part { TextBeginsSo }
    ensures one { TextIsOfOne }
{}
