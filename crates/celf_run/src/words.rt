//! The words of the command line.
ghost use Rattle.std.specs.Prelude.{◌≡◌};
ghost use Rattle.std.specs.Option.{option_copied};
ghost use Rattle.celf_run.specs.Words.{file_word as file_word_of};

use clf_syntax::Name;

/// The file's name, where the words are the program's name and a word that is not empty and does not begin with `-`.
pub fn file_word(words: &[Name]) -> Option<&Name>
    ensures { option_copied result ≡ file_word_of words.now }
{
    let [_, file] = words else {
        return None;
    };
    match file.as_str().as_bytes() {
        [] | [b'-', ..] => None,
        _ => Some(file),
    }
}
