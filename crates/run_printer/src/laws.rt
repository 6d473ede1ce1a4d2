//! What holds of the text of a run.
ghost use Rattle.run_printer.specs.Laws.{RunLinesReadBack};

/// Over a well-formed signature the text of a run whose closed object has its well-formed type reads back, after the
/// word of a check, as that object and that type.
#[tactic(auto, using(crate::proofs::RunLines::run_lines))]
pub fn run_lines_read_back()
    ensures { RunLinesReadBack }
{}
