// What a block does to what a reader keeps: alignment, CRC verdict, word and multiframe place (document 01, 'Reading a block' and 'CRC-4').
#![tactic(auto)]

ghost use Rattle.std.specs.Prelude.{◌≡◌, ◌≤◌};
ghost use Rattle.service.specs.Channel.{wrong_bits};
ghost use Rattle.track.specs.Signs.{word_in, signs_of};
ghost use Rattle.track.specs.Parts.{counted, mode_before, verdict_of, standing_of, word_read, due_read, six_after, compared, multiframe_after, kept_after};
ghost use Rattle.track.specs.Step.{stepped, lost_step, report_of, next_of, on_step, step_of};

use modes::Mode;
use numbers::BlockNumber;
use reader::Reader;
use slots::{Due, Slot};
use words::Reading;

// What a block shows in its service channel, and its remainder. The word is None where it is unreadable.
#[derive(Clone, Copy)]
pub struct Signs {
    pub wrong: u8,
    pub c: u8,
    pub first: bool,
    pub word: Option<u8>,
    pub remainder: u8,
}

#[derive(Clone, Copy, Debug, PartialEq, Eq)]
pub enum Standing {
    Waiting,
    Read,
    Lost,
}

// A block has a verdict of None where there is no block before it.
#[derive(Clone, Copy, Debug, PartialEq, Eq)]
pub enum Verdict {
    None,
    Good,
    Bad,
}

// A block's answer, with the reading of its BAS word inside it.
#[derive(Clone, Copy, Debug, PartialEq, Eq)]
pub struct Report {
    pub standing: Standing,
    pub verdict: Verdict,
    pub reading: Reading,
}

// Where the multiframe stands after a block: the next block's number, the run of wrong patterns, and what is due.
#[derive(Clone, Copy)]
pub struct Multiframe {
    pub block: BlockNumber,
    pub misses: u8,
    pub due: Due,
}

// The block's BAS word, where at most two of its alignment bits are wrong.
fn word_in(line: &[u8], wrong: u8) -> Option<u8>
    ensures { result ≡ word_in wrong line.now }
{
    if wrong <= 2 {
        bas::read_word(service::bas_word(line))
    } else {
        None
    }
}

// What a block shows, `wrong` of whose alignment bits are wrong: they have been counted by now.
fn signs_of(line: &[u8], wrong: u8) -> Signs
    requires { wrong ≡ wrong_bits line.now }
    ensures { result ≡ signs_of line.now }
{
    Signs {
        wrong,
        c: service::c_bits(line),
        first: service::odd_first(line),
        word: word_in(line, wrong),
        remainder: crc::block_crc(line),
    }
}

// A run goes on with a wrong one and ends with a right one.
fn counted(run: u8, right: bool) -> u8
    requires { run ≤ 2 }
    ensures { result ≡ counted run right }
{
    if right { 0 } else { run + 1 }
}

// The mode as the first wrong block of the run found it.
fn mode_before(s: Reader) -> Mode
    ensures { result ≡ mode_before s }
{
    if s.wrong == 0 { s.mode } else { s.kept }
}

// The mode to go back to: that in force while the alignment words are right.
fn kept_after(s: Reader, wrong: u8, mode: Mode) -> Mode
    ensures { result ≡ kept_after s wrong mode }
{
    if wrong == 0 { mode } else { mode_before(s) }
}

fn verdict_of(s: Reader, c: u8) -> Verdict
    ensures { result ≡ verdict_of s c }
{
    if s.before == 0 {
        Verdict::None
    } else if c == s.remainder {
        Verdict::Good
    } else {
        Verdict::Bad
    }
}

fn standing_of(s: Reader) -> Standing
    ensures { result ≡ standing_of s }
{
    if s.is_known() {
        Standing::Read
    } else {
        Standing::Waiting
    }
}

// While the multiframe place is known a word is read in its slot.
fn word_read(s: Reader, word: Option<u8>) -> Reading
    ensures { result ≡ word_read s word }
{
    if s.is_known() {
        words::reading_in(Due::from(s.slot), word)
    } else {
        Reading::NotRead
    }
}

fn due_read(s: Reader, word: Option<u8>) -> Due
    ensures { result ≡ due_read s word }
{
    let due = Due::from(s.slot);
    if s.is_known() {
        due.after(word)
    } else {
        due.now()
    }
}

// The last six odd-frame first bits, this block's among them.
fn six_after(firsts: u8, first: bool) -> u8
    ensures { result ≡ six_after firsts first }
{
    firsts % 32 * 2 + u8::from(first)
}

// The six, compared after block 6.
fn compared(misses: u8, right: bool, due: Due) -> Multiframe
    requires { misses ≤ 2 }
    ensures { result ≡ compared misses right due }
{
    let missed = counted(misses, right);
    if missed == 3 {
        return Multiframe {
            block: BlockNumber(0),
            misses: 0,
            due: Due::Plain,
        };
    }
    Multiframe {
        block: BlockNumber(7),
        misses: missed,
        due,
    }
}

// While the place is unknown, six that are right make the next block block 7.
#[tactic(auto, unfolding(crate::specs::Parts::multiframe_after))]
fn multiframe_after(s: Reader, right: bool, due: Due) -> Multiframe
    requires { s.misses ≤ 2 }
    ensures { result ≡ multiframe_after s right due }
{
    let misses = s.misses;
    let block = match s.block.0 {
        0 if right => BlockNumber(7),
        0 => BlockNumber(0),
        6 => return compared(misses, right, due),
        _ => s.block.next(),
    };
    Multiframe { block, misses, due }
}

// The answer to a block that is not lost.
#[tactic(auto, unfolding(crate::specs::Step::report_of))]
fn report_of(s: Reader, g: Signs) -> Report
    ensures { result ≡ report_of s g }
{
    Report {
        standing: standing_of(s),
        verdict: verdict_of(s, g.c),
        reading: word_read(s, g.word),
    }
}

// The state after a block that is not lost, where `run` alignment words in a row are wrong now.
#[tactic(auto, unfolding(crate::specs::Step::next_of))]
fn next_of(s: Reader, g: Signs, run: u8) -> Reader
    requires { s.misses ≤ 2 }
    ensures { result ≡ next_of s g run }
{
    let mode = word_read(s, g.word).obey(s.mode);
    let firsts = six_after(s.firsts, g.first);
    let stands = multiframe_after(s, firsts == 0b001011, due_read(s, g.word));
    Reader {
        mode,
        kept: kept_after(s, g.wrong, mode),
        wrong: run,
        block: stands.block,
        firsts,
        misses: stands.misses,
        slot: Slot::from(stands.due),
        before: 1,
        remainder: g.remainder,
    }
}

// The step over a block that is lost: the mode goes back, and the rest is fresh.
fn lose(state: &mut Reader) -> Report
    ensures { stepped state.new result ≡ lost_step state.old }
{
    *state = Reader::fresh_in(mode_before(*state));
    Report {
        standing: Standing::Lost,
        verdict: Verdict::None,
        reading: Reading::NotRead,
    }
}

// The step over a block that is not lost: `wrong` of its alignment bits are wrong, and `run` alignment words in a row.
fn go_on(state: &mut Reader, line: &[u8], wrong: u8, run: u8) -> Report
    requires { (state.old.misses ≤ 2) × (wrong ≡ wrong_bits line.now) }
    ensures { stepped state.new result ≡ on_step state.old (signs_of line.now) run }
{
    let signs = signs_of(line, wrong);
    let report = report_of(*state, signs);
    *state = next_of(*state, signs, run);
    report
}

// The step over a block, for a state whose runs are at most 2: the third wrong alignment word in a row is a loss, and nothing else of the block is looked at.
#[tactic(auto, unfolding(crate::specs::Step::step_of))]
pub fn step(state: &mut Reader, line: &[u8]) -> Report
    requires { (state.old.wrong ≤ 2) × (state.old.misses ≤ 2) }
    ensures { stepped state.new result ≡ step_of state.old (signs_of line.now) }
{
    let wrong = service::wrong_bits(line);
    let run = counted(state.wrong, wrong == 0);
    if run == 3 {
        lose(state)
    } else {
        go_on(state, line, wrong, run)
    }
}
