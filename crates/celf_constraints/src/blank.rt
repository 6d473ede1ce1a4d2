//! Simple types with one object alone.
ghost use Rattle.std.specs.Prelude.{◌≡◌};
ghost use Rattle.clf_syntax.specs.PlainSimple.{plain_simple};
ghost use Rattle.pattern_laws.specs.Patterns.{blank};

use clf_syntax::Simple;

/// Whether the type has one object alone, made of lambdas, pairs and `<>`.
#[tactic(auto, using(clf_syntax::specs::PlainSimple::plain_simple_laws))]
pub fn is_blank(ty: &Simple) -> bool
    ensures { result ≡ blank (plain_simple ty.now) }
{
    match ty {
        Simple::Atom(_) | Simple::Monad { .. } => false,
        Simple::Fun {
            mode: _,
            dom: _,
            cod,
        } => is_blank(cod.get()),
        Simple::With { left, right } => is_blank(left.get()) && is_blank(right.get()),
        Simple::Top => true,
    }
}
