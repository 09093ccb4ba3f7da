// Slots: what a BAS word is due to be, and what the word after it is (document 01, 'Slots').
#![tactic(auto)]

ghost use Rattle.std.specs.Prelude.{◌≡◌};
ghost use Rattle.slots.specs.Slots.{due_by, due_now, opening_in, due_after, slot_of, due_of};

use codes::Opening;

// What the next word is due to be. No words of a message left is the same as a plain word.
#[derive(Clone, Copy, Debug, PartialEq, Eq)]
pub enum Due {
    Plain,
    AnItem,
    N,
    Words(u8),
}

// What is due, as a saved state holds it: kind 0 is a plain word, 1 an item, 2 N, and every other
// number a message with `words` left. Two numbers and no enum, for a state crosses to C as it
// stands.
#[repr(C)]
#[derive(Clone, Copy, Debug, PartialEq, Eq)]
pub struct Slot {
    pub kind: u8,
    pub words: u8,
}

// What a slot holds.
impl From<Slot> for Due {
    ghost from_gives = { λ slot due. due ≡ due_of slot };

    fn from(slot: Slot) -> Due {
        match slot.kind {
            0 => Due::Plain,
            1 => Due::AnItem,
            2 => Due::N,
            _ => Due::Words(slot.words),
        }
    }
}

// What is due, in a slot.
impl From<Due> for Slot {
    ghost from_gives = { λ due slot. slot ≡ slot_of due };

    fn from(due: Due) -> Slot {
        match due {
            Due::Plain => Slot { kind: 0, words: 0 },
            Due::AnItem => Slot { kind: 1, words: 0 },
            Due::N => Slot { kind: 2, words: 0 },
            Due::Words(left) => Slot {
                kind: 3,
                words: left,
            },
        }
    }
}

// What an opening makes due.
impl From<Opening> for Due {
    ghost from_gives = { λ opening due. due ≡ due_by opening };

    fn from(opening: Opening) -> Due {
        match opening {
            Opening::Nothing => Due::Plain,
            Opening::Item => Due::AnItem,
            Opening::Message => Due::N,
        }
    }
}

// What a readable word opens, and nothing for one that is not.
fn opening_in(word: Option<u8>) -> Opening
    ensures { result ≡ opening_in word }
{
    word.map_or(Opening::Nothing, codes::opening_of)
}

impl Due {
    // What is due, once a message without words left is over.
    pub fn now(self) -> Due
        ensures { result ≡ due_now self }
    {
        match self {
            Due::Words(0) => Due::Plain,
            due => due,
        }
    }

    // What is due after a word, which is None where it is unreadable.
    #[tactic(auto, unfolding(crate::specs::Slots::due_after))]
    pub fn after(self, word: Option<u8>) -> Due
        ensures { result ≡ due_after self word }
    {
        match self {
            Due::Plain | Due::Words(0) => Due::from(opening_in(word)),
            Due::AnItem => Due::Plain,
            Due::N => Due::Words(word.unwrap_or(255)).now(),
            Due::Words(left) => Due::Words(left - 1).now(),
        }
    }
}
