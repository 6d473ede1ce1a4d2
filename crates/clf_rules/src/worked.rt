//! Worked judgments, stated by a function that does nothing.
ghost use Rattle.clf_rules.specs.Examples.{ExpressionExamples, HeadExamples, NeutralExamples, ObjectExamples, SignatureExamples, TupleExamples, TypeExamples, TypeIsPresupposed};

/// For each rule of typing and formation trees that it accepts and trees that it refuses.
pub fn worked_judgments()
    ensures heads { HeadExamples }
    ensures objects { ObjectExamples }
    ensures neutrals { NeutralExamples }
    ensures expressions { ExpressionExamples }
    ensures tuples { TupleExamples }
    ensures presupposed { TypeIsPresupposed }
    ensures types { TypeExamples }
    ensures signatures { SignatureExamples }
{}
