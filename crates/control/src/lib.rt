// What a sender decides of a call, before any octet is written: whether it is refused, the word that goes, the answer, and the state that is
// left (document 01, 'Sending a block' and 'Refusal numbers').
#![tactic(auto)]

ghost use Rattle.std.specs.Prelude.{◌≡◌};
ghost use Rattle.buffers.specs.Buffers.{each};
ghost use Rattle.control.specs.Rules.{rule_of};
ghost use Rattle.control.specs.Plans.{plan_by};
ghost use Rattle.control.specs.Refusals.{clashes, goes_plain, goes_as_item, ruling_of};
ghost use Rattle.control.specs.Decisions.{next_by, decision_of};

use modes::{AUDIO_OFF, Mode};
use refusals::Refusal;
use sender::Sender;
use slots::{Due, Slot};

// What a call says beside its buffers.
#[derive(Clone, Copy, Debug, PartialEq, Eq)]
pub struct Call {
    pub mute: bool,
    pub code: u8,
    pub a: bool,
    pub e: bool,
    pub t: bool,
}

// By which rule a word goes out.
#[derive(Clone, Copy, Debug, PartialEq, Eq)]
pub enum Rule {
    AsItem,
    MuteOff,
    Release,
    Offered,
}

// What became of the offered code in a call that is accepted: it went, or it is held and another word went.
#[derive(Clone, Copy, Debug, PartialEq, Eq)]
pub enum Went {
    Sent,
    Held,
}

// What a rule sends and answers, and what it leaves of the state.
#[derive(Clone, Copy)]
pub struct Plan {
    pub word: u8,
    pub went: Went,
    pub chosen: u8,
    pub mode: Mode,
    pub due: u8,
}

// What is decided of a call that is accepted; the next state still has the remainder of the block before.
#[derive(Clone, Copy)]
pub struct Decision {
    pub word: u8,
    pub went: Went,
    pub next: Sender,
}

// What is decided of a call that is refused, and why: no word goes, which is 0, and the next state is the one that was given (DECISIONS F45).
#[derive(Clone, Copy, Debug, PartialEq, Eq)]
pub struct Refused {
    pub why: Refusal,
    pub word: u8,
    pub next: Sender,
}

impl Rule {
    fn goes_plain(self) -> bool
        ensures { result ≡ goes_plain self }
    {
        matches!(self, Rule::Offered)
    }

    fn goes_as_item(self) -> bool
        ensures { result ≡ goes_as_item self }
    {
        matches!(self, Rule::AsItem)
    }
}

#[tactic(auto, unfolding(crate::specs::Rules::rule_of))]
fn rule_of(s: Sender, mute: bool) -> Rule
    ensures { result ≡ rule_of s mute }
{
    let due = s.due != 0;
    let sounding = s.mode.audio != AUDIO_OFF;
    let choosing = s.chosen != AUDIO_OFF;
    if due {
        return Rule::AsItem;
    }
    if mute & sounding {
        return Rule::MuteOff;
    }
    if !mute & !sounding & choosing {
        return Rule::Release;
    }
    Rule::Offered
}

// Whether the offered code overlaps, as an audio or a data command.
#[tactic(auto, unfolding(crate::specs::Refusals::clashes))]
fn clashes(s: Sender, code: u8) -> bool
    ensures { result ≡ clashes s code }
{
    match code / 32 {
        0 => s.mode.with_audio(code % 32).overlaps(),
        3 => s.chosen_mode().with_lsd(code % 32).overlaps(),
        _ => false,
    }
}

// The ruling of a call with buffers of these lengths: its rows, in their order. Rows 5 to 8 look only at an offered code that is not held.
#[tactic(auto, unfolding(crate::specs::Refusals::ruling_of))]
fn ruling_of(s: Sender, c: Call, line: usize, voice: usize, lsd: usize) -> Result<(), Refusal>
    ensures { result ≡ ruling_of s c line (each voice lsd) }
{
    let rule = rule_of(s, c.mute);
    let plain = rule.goes_plain();
    let item = rule.goes_as_item();
    let attribute = c.code / 32;
    let [voice_length, lsd_length] = buffers::stream_rows(voice, lsd);
    refusals::first_given(&[
        Refusal::BadState.row(!s.is_in_range()),
        buffers::line_row(line),
        voice_length,
        lsd_length,
        Refusal::NotCarried.row(plain & !codes::sender_carries(c.code)),
        Refusal::ForbiddenItem.row(item & (attribute == 7)),
        Refusal::AudioWhileMuted.row(plain & (attribute == 0) & c.mute),
        Refusal::Overlap.row(plain & clashes(s, c.code)),
    ])
}

#[tactic(auto, unfolding(crate::specs::Plans::plan_by))]
fn plan_by(rule: Rule, s: Sender, code: u8) -> Plan
    ensures { result ≡ plan_by rule s code }
{
    match rule {
        Rule::AsItem => Plan {
            word: code,
            went: Went::Sent,
            chosen: s.chosen,
            mode: s.mode,
            due: 0,
        },
        Rule::MuteOff => Plan {
            word: AUDIO_OFF,
            went: Went::Held,
            chosen: s.chosen,
            mode: s.mode.with_audio(AUDIO_OFF),
            due: 0,
        },
        Rule::Release => Plan {
            word: s.chosen,
            went: Went::Held,
            chosen: s.chosen,
            mode: s.chosen_mode(),
            due: 0,
        },
        Rule::Offered => {
            let command = codes::command_of(code);
            Plan {
                word: code,
                went: Went::Sent,
                chosen: command.offer(s.chosen_mode()).audio,
                mode: command.offer(s.mode),
                due: Slot::from(Due::Plain.after(Some(code))).kind,
            }
        }
    }
}

// The state that a plan leaves, its remainder still that of the block before.
fn next_by(p: Plan, s: Sender) -> Sender
    ensures { result ≡ next_by p s }
{
    Sender {
        chosen: p.chosen,
        mode: p.mode,
        block: s.block.next(),
        due: p.due,
        remainder: s.remainder,
    }
}

// What is decided of a call with a line block and buffers of these lengths (DECISIONS F45).
#[tactic(auto, unfolding(crate::specs::Decisions::decision_of))]
pub fn decide(
    s: Sender,
    c: Call,
    line: usize,
    voice: usize,
    lsd: usize,
) -> Result<Decision, Refused>
    ensures { result ≡ decision_of s c line (each voice lsd) }
{
    if let Err(why) = ruling_of(s, c, line, voice, lsd) {
        return Err(Refused {
            why,
            word: 0,
            next: s,
        });
    }
    let plan = plan_by(rule_of(s, c.mute), s, c.code);
    Ok(Decision {
        word: plan.word,
        went: plan.went,
        next: next_by(plan, s),
    })
}
