ghost use Rattle.std.specs.{Prelude.{◌≡◌, Some, drop}, Str.chars};
ghost use Rattle.settings.specs.Faults.{is_unseen, shown_character, dots, one_line, end_of_line};

use crate::limits::MAX_SHOWN;
use std::fmt;

/// A text from outside on one line: characters that nobody sees are escaped, and `..` stands for whatever follows the
/// first 64 characters.
#[derive(Clone, Copy)]
pub struct OneLine<'a>(pub &'a str);

impl fmt::Display for OneLine<'_> {
    ghost output = { λ text. Some (one_line text.0.now) };

    fn fmt<W: fmt::Write>(&self, f: &mut fmt::Formatter<W>) -> fmt::Result {
        let mut shown = 0usize;
        for character in self.0.chars() {
            if shown == MAX_SHOWN {
                return f.write_str("..");
            }
            shown += 1;
            ShownCharacter(character).fmt(f)?;
        }
        Ok(())
    }
}

/// As [`OneLine`], but `..` stands for whatever precedes the last 64 characters: of a path the end says most.
#[derive(Clone, Copy)]
pub struct EndOfLine<'a>(pub &'a str);

impl fmt::Display for EndOfLine<'_> {
    ghost output = { λ text. Some (end_of_line text.0.now) };

    fn fmt<W: fmt::Write>(&self, f: &mut fmt::Formatter<W>) -> fmt::Result {
        let count = self.0.chars().count();
        let dots = dots_before(count);
        let end = OneLine(without_first(self.0, count.saturating_sub(MAX_SHOWN)));
        write!(f, "{dots}{end}")
    }
}

fn dots_before(count: usize) -> &'static str
    ensures { result.now ≡ dots count }
{
    if count > MAX_SHOWN { ".." } else { "" }
}

fn without_first(text: &str, count: usize) -> &str
    ensures { chars result.now ≡ drop count (chars text.now) }
{
    let mut rest = text.chars();
    for _ in 0..count {
        rest.next();
    }
    rest.as_str()
}

/// A character as shown: one that nobody sees, such as U+00A0, by its number.
#[derive(Clone, Copy)]
pub struct ShownCharacter(pub char);

impl fmt::Display for ShownCharacter {
    ghost output = { λ character. Some (shown_character character.0) };

    fn fmt<W: fmt::Write>(&self, f: &mut fmt::Formatter<W>) -> fmt::Result {
        let character = self.0;
        if is_unseen(character) {
            let code = character as u32;
            write!(f, "\\u{{{code:x}}}")
        } else {
            f.write_char(character)
        }
    }
}

/// Whether a character is not seen as itself: a control character, a blank but for the space, or one without a width.
pub fn is_unseen(character: char) -> bool
    ensures { result ≡ is_unseen character }
{
    character.is_control()
        || (character.is_whitespace() && character != ' ')
        || matches!(character, '\u{ad}' | '\u{feff}')
        || matches!(character, '\u{200b}'..='\u{200f}' | '\u{202a}'..='\u{202e}' | '\u{2060}'..='\u{206f}')
}
