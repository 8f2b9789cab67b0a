//! Names of files, as they are shown.
ghost use Rattle.std.specs.Prelude.{◌≡◌};
ghost use Rattle.std.specs.Fmt.{WritesOnOk};
ghost use Rattle.mm_files.specs.FileNames.{shown_name, shown_char};

use std::fmt;

/// The name of a file, shown in one line: with `?` for each control character of ASCII, as a line feed is.
#[derive(Clone, Copy)]
pub struct Shown<'a>(pub &'a str);

fn shown_char(character: char) -> char
    ensures { result ≡ shown_char character }
{
    if character.is_ascii_control() {
        '?'
    } else {
        character
    }
}

// Writes a name in one line.
fn write_shown<W: fmt::Write>(name: &str, f: &mut fmt::Formatter<W>) -> fmt::Result
    ensures writes { WritesOnOk W.write_str_gives f.old result (shown_name name.now) f.new }
{
    for character in name.chars() {
        f.write_char(shown_char(character))?;
    }
    Ok(())
}

impl fmt::Display for Shown<'_> {
    ghost use Rattle.std.specs.Prelude.{Some};

    ghost output = { λ shown. Some (shown_name shown.0.now) };

    fn fmt<W: fmt::Write>(&self, f: &mut fmt::Formatter<W>) -> fmt::Result {
        write_shown(self.0, f)
    }
}
