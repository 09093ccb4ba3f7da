// Presets: a sender's chosen audio and data as sixteen bits (document 01, 'Preset').
#![tactic(auto)]

ghost use Rattle.std.specs.Prelude.{◌≡◌, ◌/◌, ◌%◌};
ghost use Rattle.presets.specs.Presets.{audio_in, lsd_in, is_preset, preset_read, preset_written};

use modes::Mode;
use refusals::Refusal;
use sender::Sender;

// The code of data [0], "data off"; those of the other data values follow it.
pub const OFFER_LSD_OFF: u8 = 96;

// A state to start from, and the data code to offer.
#[derive(Clone, Copy, Debug, PartialEq, Eq)]
pub struct PresetRead {
    pub state: Sender,
    pub offer: u8,
}

// What bits that are no preset give: why, and in place of what they would stand for a fresh state and "data off" (DECISIONS P6).
#[derive(Clone, Copy, Debug, PartialEq, Eq)]
pub struct PresetUnread {
    pub why: Refusal,
    pub state: Sender,
    pub offer: u8,
}

fn audio_in(bits: u16) -> u8
    ensures { result ≡ audio_in bits }
{
    (bits / 2048) as u8
}

fn lsd_in(bits: u16) -> u8
    ensures { result ≡ lsd_in bits }
{
    (bits / 64 % 32) as u8
}

#[tactic(auto, unfolding(crate::specs::Presets::is_preset))]
fn is_preset(bits: u16) -> bool
    ensures { result ≡ is_preset bits }
{
    let mode = Mode::off()
        .with_audio(audio_in(bits))
        .with_lsd(lsd_in(bits));
    mode.is_in_range() & (bits % 64 == 0)
}

// A preset's state to start from, and the data code to offer.
#[tactic(auto, unfolding(crate::specs::Presets::preset_read))]
pub fn read_preset(bits: u16) -> Result<PresetRead, PresetUnread>
    ensures { result ≡ preset_read bits }
{
    if let Err(why) = refusals::first_given(&[Refusal::NotAPreset.row(!is_preset(bits))]) {
        return Err(PresetUnread {
            why,
            state: Sender::fresh(),
            offer: OFFER_LSD_OFF,
        });
    }
    Ok(PresetRead {
        state: Sender::fresh_with(audio_in(bits)),
        offer: OFFER_LSD_OFF + lsd_in(bits),
    })
}

// A state's chosen audio and data in force, as a preset.
#[tactic(auto, unfolding(crate::specs::Presets::preset_written))]
pub fn write_preset(s: Sender) -> Result<u16, Refusal>
    ensures { result ≡ preset_written s }
{
    refusals::first_given(&[Refusal::BadState.row(!s.is_in_range())])?;
    Ok(u16::from(s.chosen) * 2048 + u16::from(s.mode.lsd) * 64)
}
