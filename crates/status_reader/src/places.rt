// The wanted lines of a text, one after the other; the lines between them are passed over.
ghost use Rattle.std.specs.Prelude.{◌≡◌, ◌+◌, ◌^◌, ◌<◌, ℕ, List, length, MatchOption};
ghost use Rattle.std.specs.Fn.{FnReturnsAt};
ghost use Rattle.status.specs.Lines.{Entry};
ghost use Rattle.status.specs.Reading.{read_entry};
ghost use Rattle.status_reader.specs.Inside.{from, NoneLeft, NextIs, DueAhead, ReadsLine};

use crate::lines::{first_line, is_wanted};
use status::ReadError;

// Where a text is read to: what stands behind the lines that were read or passed over, and how many they are.
#[derive(Drop)]
pub(crate) struct Place<'a> {
    pub rest: &'a [u8],
    pub passed: usize,
    ghost fits: { passed + length rest.now < 2 ^ 63 },
}

impl<'a> Place<'a> {
    // The start of a text.
    pub(crate) fn start(text: &'a [u8]) -> Place<'a>
        ensures { (result.rest.now ≡ text.now) × (result.passed ≡ 0) }
    {
        Place {
            rest: text,
            passed: 0,
        }
    }

    // The next wanted line, and the place is past it; or none, and it is past all lines. A `while`: what is left of the text is the place's own, and the
    // contract speaks of it. An iterator over lines would have to stand beside it.
    pub(crate) fn next_wanted(&mut self) -> Option<&'a [u8]>
        ensures { MatchOption result (NoneLeft self.old.rest.now self.old.passed self.new.passed) (λ l. NextIs self.old.rest.now self.old.passed l.now self.new.rest.now self.new.passed) }
    {
        // (What changes at each line is held apart and put back once: the place is behind a reference, and a count there is read and written anew.)
        let mut rest = self.rest;
        let mut passed = self.passed;
        while let Some((line, behind)) = first_line(rest) {
            rest = behind;
            passed += 1;
            if is_wanted(line) {
                *self = Place { rest, passed };
                return Some(line);
            }
        }
        *self = Place { rest, passed };
        None
    }

    // What `read` reads of the wanted line that comes next, where one is due: a fault is that it does not come, or that nothing can be read of it.
    pub(crate) fn due<T, F: Fn(&[u8]) -> Option<T>>(&mut self, read: F) -> Result<T, ReadError>
        requires { F.IsAlwaysCallable read }
        ensures { (e : Entry) (values : T → List ℕ) → ReadsLine (FnReturnsAt F.Fn read) values e → DueAhead values result self.old.rest.now self.old.passed e self.new.rest.now self.new.passed }
    {
        let Some(line) = self.next_wanted() else {
            return Err(ReadError::Malformed(self.passed + 1));
        };
        read(line).ok_or(ReadError::Malformed(self.passed))
    }
}
