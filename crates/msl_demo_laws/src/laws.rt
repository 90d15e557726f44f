//! Laws of the demonstration. Each function here is empty, and its contract is the law.

ghost use Rattle.std.specs.Prelude.{◌≡◌, codes};
ghost use Rattle.msl_grammar.specs.ScriptGrammar.{ReadsAs};
ghost use Rattle.msl_program.specs.Need.{need};
ghost use Rattle.msl_demo_laws.specs.Demo.{demo_text};
ghost use Rattle.msl_demo_laws.specs.Script.{demo_script};
ghost use Rattle.msl_demo_laws.specs.Results.{the_line};
ghost use Rattle.msl_demo_laws.specs.Laws.{IsReadOnlySo, RunsGiveResults, SeqGivesResults, ResultsAreRun, ResultsAreSmall, LineIsClosed, GivesTheLine, GivesOnlyTheLine, GivesOneLine, InputReads, NoRunFaults, WholeRunsWrite};

/// The text reads as the script, and as nothing else; it is never refused.
pub fn text_is_the_script()
    ensures reads { ReadsAs demo_text demo_script }
    ensures only { IsReadOnlySo }
{}

/// The script needs 4 processes: one for its ends, two workers and a team of one.
pub fn script_needs_four()
    ensures { need demo_script ≡ 4 }
{}

/// Whatever the script makes of the records has no fault, and is three small numbers for each of them, in some order.
pub fn runs_give_results()
    ensures any { RunsGiveResults }
    ensures in_order { SeqGivesResults }
    ensures some { ResultsAreRun }
    ensures small { ResultsAreSmall }
{}

/// The order of the results doesn't show in the line: for each number of records there is exactly one.
pub fn line_is_one()
    ensures closed { LineIsClosed }
    ensures given { GivesTheLine }
    ensures only { GivesOnlyTheLine }
    ensures one { GivesOneLine }
{}

/// A run over the text of the records, where it is whole, writes the text of records that give the line. It never ends
/// with a fault.
pub fn runs_over_bytes()
    ensures input { InputReads }
    ensures faultless { NoRunFaults }
    ensures whole { WholeRunsWrite }
{}

/// Some lines.
pub fn lines()
    ensures none { the_line 0 ≡ codes "demo: 0 records in, 0 records out, 0 numbers, sum 0\n" }
    ensures four { the_line 4 ≡ codes "demo: 4 records in, 4 records out, 12 numbers, sum 304\n" }
    ensures ten { the_line 10 ≡ codes "demo: 10 records in, 10 records out, 30 numbers, sum 4800\n" }
{}
