// Presets as a driver reads and writes them, over a lent state and in the numbers that cross to C (document 01, 'Preset').
#![tactic(auto)]

ghost use Rattle.std.specs.Prelude.{◌≡◌};
ghost use Rattle.presetting.specs.Presetting.{preset_answer_of, preset_bits_of, preset_taken, preset_given};

use presets::{PresetRead, PresetUnread};
use refusals::Refusal;
use sender::Sender;

// The data code to offer and number 0, or "data off" and the refusal's number.
#[repr(C)]
#[derive(Clone, Copy, Debug, PartialEq, Eq)]
pub struct PresetAnswer {
    pub offer: u8,
    pub number: u8,
}

// A preset and number 0, or 0 and a refusal's number.
#[repr(C)]
#[derive(Clone, Copy, Debug, PartialEq, Eq)]
pub struct PresetBits {
    pub bits: u16,
    pub number: u8,
    pub reserved: u8,
}

// A preset that was read: the data code to offer.
impl From<Result<PresetRead, PresetUnread>> for PresetAnswer {
    ghost from_gives = { λ read answer. answer ≡ preset_answer_of read };

    fn from(read: Result<PresetRead, PresetUnread>) -> PresetAnswer {
        match read {
            Ok(preset) => PresetAnswer {
                offer: preset.offer,
                number: 0,
            },
            Err(unread) => PresetAnswer {
                offer: unread.offer,
                number: u8::from(unread.why),
            },
        }
    }
}

// A preset that was written.
impl From<Result<u16, Refusal>> for PresetBits {
    ghost from_gives = { λ written answer. answer ≡ preset_bits_of written };

    fn from(written: Result<u16, Refusal>) -> PresetBits {
        match written {
            Ok(bits) => PresetBits {
                bits,
                number: 0,
                reserved: 0,
            },
            Err(why) => PresetBits {
                bits: 0,
                number: u8::from(why),
                reserved: 0,
            },
        }
    }
}

// A preset's state to start from and the data code to offer, or the state as it was and a refusal.
pub fn preset_step(state: &mut Sender, bits: u16) -> PresetAnswer
    ensures answer { result ≡ (preset_taken state.old bits).answer }
    ensures state { state.new ≡ (preset_taken state.old bits).state }
{
    let read = presets::read_preset(bits);
    *state = read.map_or(*state, |preset| preset.state);
    PresetAnswer::from(read)
}

// A state's chosen audio and data in force, as a preset.
pub fn preset_of(state: Sender) -> PresetBits
    ensures { result ≡ preset_given state }
{
    PresetBits::from(presets::write_preset(state))
}
