// What a BAS word is read as where it stands, and what that does to the mode (document 01, 'Slots'
// and 'Reading a block').
#![tactic(auto)]

ghost use Rattle.std.specs.Prelude.{◌≡◌};
ghost use Rattle.words.specs.Readings.{plain_reading, item_reading, reading_in, obeyed, code_of};

use modes::Mode;
use slots::Due;

// What a word was read as. All but the last two hold its code.
#[derive(Clone, Copy, Debug, PartialEq, Eq)]
pub enum Reading {
    Mended(u8),
    Item(u8),
    MessageWord(u8),
    ForbiddenItem(u8),
    NotFollowed(u8),
    Unreadable,
    NotRead,
}

fn plain_reading(code: u8) -> Reading
    ensures { result ≡ plain_reading code }
{
    if code / 32 <= 3 && !codes::reader_carries(code) {
        Reading::NotFollowed(code)
    } else {
        Reading::Mended(code)
    }
}

fn item_reading(code: u8) -> Reading
    ensures { result ≡ item_reading code }
{
    if code / 32 == 7 {
        Reading::ForbiddenItem(code)
    } else {
        Reading::Item(code)
    }
}

// What a word is read as, where `due` is due.
#[tactic(auto, unfolding(crate::specs::Readings::reading_in))]
pub fn reading_in(due: Due, word: Option<u8>) -> Reading
    ensures { result ≡ reading_in due word }
{
    let Some(code) = word else {
        return Reading::Unreadable;
    };
    match due.now() {
        Due::Plain => plain_reading(code),
        Due::AnItem => item_reading(code),
        Due::N | Due::Words(_) => Reading::MessageWord(code),
    }
}

impl Reading {
    // The code that was read, where there is one.
    pub fn code(self) -> Option<u8>
        ensures { result ≡ code_of self }
    {
        match self {
            Reading::Mended(code)
            | Reading::Item(code)
            | Reading::MessageWord(code)
            | Reading::ForbiddenItem(code)
            | Reading::NotFollowed(code) => Some(code),
            Reading::Unreadable | Reading::NotRead => None,
        }
    }

    // The mode after a reading: only a plain word that is followed is a command.
    #[tactic(auto, unfolding(crate::specs::Readings::obeyed))]
    pub fn obey(self, mode: Mode) -> Mode
        ensures { result ≡ obeyed self mode }
    {
        match self {
            Reading::Mended(code) => codes::command_of(code).follow(mode),
            _ => mode,
        }
    }
}
