// A line as it comes in.
ghost use Rattle.std.specs.Prelude.{◌≡◌, ℕ, ◌≤◌, List, [], ◌∷◌, ◌++◌, length, Decides, IfSome, Some};
ghost use Rattle.script.specs.Lines.{Holds, pushed};
ghost use Rattle.script.specs.Spelling.{Says};

use crate::Command;
use crate::reading::read;
use arrayvec::ArrayVec;
use std::marker::Model;

// The bytes of one line, pushed one by one. No command has more than 64, so of a line that is longer it is enough to know
// that it is.
#[derive(Drop)]
pub struct Line {
    bytes: Option<ArrayVec<u8, 64>>,
}

impl Model for Line {
    ghost use Rattle.std.specs.Prelude.{ℕ, ◌≤◌, List, length, IfSome, Option};
    ghost use Rattle.std.specs.Option.{option_map};

    ghost Value = { Option (List ℕ) };

    ghost view = { λ line. option_map (λ bytes. bytes.items) line.bytes };

    ghost invariant = { λ line. IfSome line.bytes (λ bytes. length bytes.items ≤ 64) };
}

impl Line {
    // The line with no byte.
    pub fn new() -> Line
        ensures { result ≡ Some [] }
    {
        Line {
            bytes: Some(ArrayVec::new()),
        }
    }

    // Puts `b` after the bytes of the line.
    pub fn push(&mut self, b: u8)
        ensures bytes { self.new ≡ pushed self.old b }
        ensures all { (bs : List ℕ) → Holds self.old bs → Holds self.new (bs ++ b ∷ []) }
    {
        if self.bytes.as_ref().is_some_and(|bytes| bytes.is_full()) {
            self.bytes = None;
        } else if let Some(bytes) = &mut self.bytes {
            bytes.push(b);
        }
    }

    // Takes all bytes from the line.
    pub fn clear(&mut self)
        ensures { self.new ≡ Some [] }
    {
        *self = Line::new();
    }

    // Whether the line has no byte. (`short` is so of every line, and stands here because a caller sees of a line its value alone.)
    pub fn is_empty(&self) -> bool
        ensures is { Decides result (self.now ≡ Some []) }
        ensures short { IfSome self.now (λ bs. length bs ≤ 64) }
    {
        self.bytes.as_ref().is_some_and(|bytes| bytes.is_empty())
    }

    // The command that the bytes of the line are, as `read` gives it.
    pub fn command(&self, pages: u32) -> Option<Command>
        ensures { (bs : List ℕ) → Holds self.now bs → Says pages bs result }
    {
        read(self.bytes.as_ref()?, pages)
    }
}
