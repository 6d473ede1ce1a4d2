//! Laws of the definitions of a run, each stated by a function that does nothing.
ghost use Rattle.celf_run.specs.Laws.{EachTaskHasReply, NextIsOne, NothingIsNext, PrintedLinesReadBack, ReplyIsOne, TranscriptIsOne};

/// Over a well-formed signature the lines of each allowed reply read back.
pub fn printed_lines_read_back()
    ensures { PrintedLinesReadBack }
{}

/// Over a well-formed signature each task has an allowed reply, where nothing is to be found for what is not written:
/// so what `run` promises of such a text is not empty.
pub fn each_task_has_a_reply()
    ensures { EachTaskHasReply }
{}

/// Over a well-formed signature a task has one reply, where nothing is to be found for what is not written. What comes
/// next in a text is one task, and none where nothing but blanks and comments is left. So a text has one transcript,
/// where it has one in which nothing is to be found.
pub fn one_transcript()
    ensures reply { ReplyIsOne }
    ensures next { NextIsOne }
    ensures over { NothingIsNext }
    ensures transcript { TranscriptIsOne }
{}
