//! The version of the program, and the words that ask for it.
ghost use Rattle.std.specs.Prelude.{◌≡◌, map};
ghost use Rattle.mm_command_line.specs.Lines.{is_version_line, is_version_word};

use std::convert::AsStr;

/// What is printed for `--version`: the program with its version, and the kit that it is proved with, as `rt version`
/// has it.
pub const VERSION: &str = "mm_tool 0.4.0\nrattle-kit-13f logic dac8208d650f15bf\n";

fn is_version_word(word: &str) -> bool
    ensures { result ≡ is_version_word word.now }
{
    matches!(word, "--version" | "-V")
}

/// Whether the words ask for the version: they are `--version` or `-V`, and nothing else.
#[tactic(auto, using(crate::proofs::Versions::other_lengths, crate::proofs::Versions::one_word))]
pub fn asks_version<S: AsStr>(words: &[S]) -> bool
    ensures asks { result ≡ is_version_line (map S.text words.now) }
{
    words.len() == 1 && is_version_word(words[0].as_str())
}
