//! What the definition of the tokens says, in terms of spellings.

ghost use Rattle.celf_lexer.specs.Sign.{Front, front};
ghost use Rattle.celf_lexer.specs.Spelling.{IsFront};
ghost use Rattle.celf_lexer.specs.Worked.{WorkedTokens};
ghost use Rattle.std.specs.Prelude.{◌≡◌, ◌↔◌, List, ℕ};

/// The token that begins some bytes is the one with the longest spelling that may begin them. It is too long exactly
/// where its word has more than 255 bytes, and no token begins the bytes exactly where no spelling may begin them.
pub fn longest_spelling_begins()
    ensures { (bytes : List ℕ) (f : Front) → (front bytes ≡ f) ↔ IsFront bytes f }
{}

/// Some texts have the tokens that are worked out for them by hand.
pub fn worked_tokens()
    ensures { WorkedTokens }
{}
