// The lines of a schedule that aren't skipped.
ghost use Rattle.std.specs.Prelude.{◌≡◌, ◌∷◌, ◌≤◌, ◌^◌, [], IfNone, IfSome, length};
ghost use Rattle.spec_steps.specs.Lines.{end_of, kept_in, lines_left};

use mp_text::{is_skipped, line_text, next_line};
use std::marker::Model;

/// A line of a file with its number, counted from 1.
#[derive(Drop)]
pub struct Line<'a> {
    pub number: u32,
    pub text: &'a [u8],
}

impl<'a> Model for Line<'a> {
    ghost use Rattle.std.specs.Prelude.{ℕ, List};

    ghost Value = { ℕ × List ℕ };

    ghost view = { λ l. (l.number, l.text.now) };
}

/// What is left of a file behind so many lines.
#[derive(Drop)]
pub struct Lines<'a> {
    gone: u32,
    rest: &'a [u8],
}

impl<'a> Model for Lines<'a> {
    ghost use Rattle.std.specs.Prelude.{◌+◌, ◌≤◌, ◌^◌, length};
    ghost use Rattle.spec_steps.specs.Lines.{LinesLeft, lines_left};

    ghost Value = { LinesLeft };

    ghost view = { λ l. lines_left l.gone l.rest.now };

    ghost invariant = { λ l. l.gone + length l.rest.now ≤ 2 ^ 22 };
}

impl<'a> Lines<'a> {
    /// The lines of a file.
    pub fn new(file: &'a [u8]) -> Lines<'a>
        requires { length file.now ≤ 2 ^ 22 }
        ensures { result ≡ lines_left 0 file.now }
    {
        Lines {
            gone: 0,
            rest: file,
        }
    }

    /// The next line that isn't skipped.
    pub fn next(&mut self) -> Option<Line<'a>>
        ensures none { IfNone result (kept_in self.old ≡ []) }
        ensures over { IfNone result (self.new.texts ≡ []) }
        ensures some { IfSome result (λ line. kept_in self.old ≡ line ∷ kept_in self.new) }
        ensures end { end_of self.new ≡ end_of self.old }
    {
        while let Some((line, rest)) = next_line(self.rest) {
            self.gone += 1;
            self.rest = rest;
            let text = line_text(line);
            if !is_skipped(text) {
                return Some(Line {
                    number: self.gone,
                    text,
                });
            }
        }
        None
    }

    /// The number of the line behind the last, where no line is left.
    pub fn end(&self) -> u32
        requires { self.now.texts ≡ [] }
        ensures { result ≡ end_of self.now }
    {
        self.gone + 1
    }
}
