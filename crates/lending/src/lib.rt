// Thin functions over a lent state: one that looks at it, one that fills it, and one that advances it and answers, each by a function that takes the
// state by value. Each law is said over any state, any answer and any such function; what that function is passed besides is its own. The buffers
// that are filled on the way are the law's, so that it says what they hold.
#![tactic(auto)]

ghost use Rattle.std.specs.Prelude.{◌≡◌, List, ℕ};
ghost use Rattle.std.specs.Borrow.{MutBor};
ghost use Rattle.lending.specs.Filling.{Fills, FillsTwo};
ghost use Rattle.lending.specs.GoingOn.{GoesOn};

// What a step gives back: the state, and then the answer.
#[derive(Drop)]
pub struct Stepped<T, N> {
    pub state: T,
    pub answer: N,
}

// A function looks at a lent state and answers of it.
pub fn looks<T: Copy, N, F: FnOnce(T) -> N>(state: &T, by_value: F) -> N
    requires { F.pre by_value state.now }
    ensures { F.post by_value state.now result }
{
    by_value(*state)
}

// A function looks at a lent state and fills a buffer by it.
pub fn looks_filling<T: Copy, N, F: FnOnce(T, &mut [u8]) -> N>(
    state: &T,
    filled: &mut [u8],
    by_value: F,
) -> N
    requires { F.IsAlwaysCallable by_value }
    ensures { Fills filled.old filled.new (λ before after. F.post by_value state.now before result after) }
{
    by_value(*state, filled)
}

// A function fills a lent state.
pub fn fills<T: Drop, F: FnOnce() -> T>(state: &mut T, by_value: F)
    requires { F.pre by_value }
    ensures { F.post by_value state.new }
{
    *state = by_value();
}

// A function advances a lent state and answers.
pub fn steps<T: Copy + Drop, N, F: FnOnce(T) -> Stepped<T, N>>(state: &mut T, by_value: F) -> N
    requires { F.pre by_value state.old }
    ensures { F.post by_value state.old (record { state = state.new; answer = result }) }
{
    let stepped = by_value(*state);
    *state = stepped.state;
    stepped.answer
}

// A function advances a lent state, fills a buffer and answers; or it refuses, and the state stays as it was.
pub fn goes_on_filling<
    T: Copy + Drop,
    N: Drop,
    E: Drop,
    F: FnOnce(T, &mut [u8]) -> Result<Stepped<T, N>, E>,
>(state: &mut T, filled: &mut [u8], by_value: F) -> Result<N, E>
    requires { F.IsAlwaysCallable by_value }
    ensures { Fills filled.old filled.new (λ before after. GoesOn state.old state.new result (λ stepped. F.post by_value state.old before stepped after)) }
{
    match by_value(*state, filled) {
        Ok(stepped) => {
            *state = stepped.state;
            Ok(stepped.answer)
        }
        Err(why) => Err(why),
    }
}

// A function advances a lent state, fills a buffer and answers.
pub fn steps_filling<T: Copy + Drop, N, F: FnOnce(T, &mut [u8]) -> Stepped<T, N>>(
    state: &mut T,
    filled: &mut [u8],
    by_value: F,
) -> N
    requires { F.IsAlwaysCallable by_value }
    ensures { Fills filled.old filled.new (λ before after. F.post by_value state.old before (record { state = state.new; answer = result }) after) }
{
    let stepped = by_value(*state, filled);
    *state = stepped.state;
    stepped.answer
}

// The same with two buffers.
pub fn steps_filling_two<T: Copy + Drop, N, F: FnOnce(T, &mut [u8], &mut [u8]) -> Stepped<T, N>>(
    state: &mut T,
    first: &mut [u8],
    second: &mut [u8],
    by_value: F,
) -> N
    requires { F.IsAlwaysCallable by_value }
    ensures { FillsTwo first.old first.new second.old second.new (λ before before2 after after2. F.post by_value state.old before before2 (record { state = state.new; answer = result }) after after2) }
{
    let stepped = by_value(*state, first, second);
    *state = stepped.state;
    stepped.answer
}
