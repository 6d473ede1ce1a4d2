//! What the texts are, by example.
ghost use Rattle.clf_printer.specs.Worked.{WorkedObjects, WorkedTypes};

/// Each form of an object, a type, a kind and an entry has the text that is worked out for it by hand.
pub fn worked_texts()
    ensures types { WorkedTypes }
    ensures objects { WorkedObjects }
{}
