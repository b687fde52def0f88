ghost use Rattle.std.specs.Prelude.{◌≡◌};
ghost use Rattle.decoder.specs.Mobiles.{fully_acts, mobile_acts, directed as directed_in, sped as sped_to, sped_short, mobile_changed, mobile_effect, mobile_after, mobile_plan};

use crate::access::access_effect;
use crate::effect::Effect;
use crate::heard::Heard;
use crate::records::Mobile;
use crate::role::Role;
use crate::view::MobileView;
use packet::{CvNumber, Instruction};
use state::{MobileState, Scale, Speed, has_bit, with_bit};

// The definitions take what is heard apart, since they go by the instruction; the functions take it whole.

/// Whether a packet to the own address or to all acts.
fn fully_acts(state: &MobileState, view: &MobileView, heard: Heard) -> bool
    ensures { result ≡ fully_acts state.now view.now heard.role heard.packet heard.instruction }
{
    match heard.instruction {
        Instruction::NoOperation | Instruction::Output { .. } | Instruction::Aspect { .. } => false,
        Instruction::Speed { .. } | Instruction::Speed126 { .. } => {
            heard.role != Role::Own || !view.in_consist()
        }
        Instruction::BinaryStateLong { number, .. } => number <= 2047,
        Instruction::VerifyByte { .. }
        | Instruction::WriteByte { .. }
        | Instruction::VerifyBit { .. }
        | Instruction::WriteBit { .. } => heard.accesses(state.waiting, heard.accessed(view.named)),
        _ => true,
    }
}

/// Whether a packet that is heard acts: by the consist address only speed does.
fn acts(state: &MobileState, view: &MobileView, heard: Heard) -> bool
    ensures { result ≡ mobile_acts state.now view.now heard.role heard.packet heard.instruction }
{
    match heard.role {
        Role::Consist => matches!(
            heard.instruction,
            Instruction::Speed { .. } | Instruction::Speed126 { .. }
        ),
        _ => fully_acts(state, view, heard),
    }
}

/// The direction that was sent, turned where the decoder runs reversed in its consist.
fn directed(view: &MobileView, role: Role, forward: bool) -> bool
    ensures { result ≡ directed_in view.now role forward }
{
    match role {
        Role::Consist if has_bit(view.consist, 7) => !forward,
        _ => forward,
    }
}

fn go(state: &mut MobileState, scale: Scale, forward: bool, code: u8)
    ensures { state.new ≡ sped_to state.old scale forward code }
{
    state.forward = forward;
    state.speed = Speed::at(scale, code);
}

/// Speed in 28 steps or in 14, where FL becomes bit 4 of the code.
fn go_short(state: &mut MobileState, view: &MobileView, forward: bool, code: u8)
    ensures { state.new ≡ sped_short state.old view.now forward code }
{
    if has_bit(view.config, 1) {
        go(state, Scale::TwentyEight, forward, code);
    } else {
        go(state, Scale::Fourteen, forward, code);
        state.functions.put_light(code);
    }
}

/// What a packet that acts makes of the volatile part.
fn change(state: &mut MobileState, view: &MobileView, heard: Heard)
    ensures { state.new ≡ mobile_changed state.old view.now heard.role heard.instruction }
{
    match heard.instruction {
        Instruction::Reset | Instruction::HardReset => *state = MobileState::new(),
        Instruction::Speed { forward, code } => go_short(
            state,
            view,
            directed(view, heard.role, forward),
            code,
        ),
        Instruction::Speed126 { forward, code } => {
            go(
                state,
                Scale::OneTwentySix,
                directed(view, heard.role, forward),
                code,
            );
        }
        Instruction::Functions { group, bits } => state
            .functions
            .switch(group, bits, has_bit(view.config, 1)),
        Instruction::BinaryStateShort { on, number: 0 } => state.states.put_low(on),
        Instruction::BinaryStateShort { on, number } => state.states.put(u16::from(number), on),
        Instruction::BinaryStateLong { on, number: 0 } => state.states.put_all(on),
        Instruction::BinaryStateLong { on, number } => state.states.put(number, on),
        _ => {}
    }
}

/// What an instruction that acts does to the variables.
fn effect(view: &MobileView, heard: Heard) -> Option<Effect>
    ensures { result ≡ mobile_effect view.now heard.instruction }
{
    match heard.instruction {
        Instruction::HardReset => Some(Effect::HardReset),
        Instruction::AdvancedAddressing { on } => Some(Effect::Put {
            cv: CvNumber::CONFIGURATION,
            value: with_bit(view.config, 5, on),
        }),
        Instruction::Consist { reversed, address } => Some(Effect::Put {
            cv: CvNumber::CONSIST_ADDRESS,
            value: if reversed { 128 } else { 0 } + address % 128,
        }),
        Instruction::AccelerationAdjustment { value } => Some(Effect::Put {
            cv: CvNumber::ACCELERATION_ADJUSTMENT,
            value,
        }),
        Instruction::DecelerationAdjustment { value } => Some(Effect::Put {
            cv: CvNumber::DECELERATION_ADJUSTMENT,
            value,
        }),
        Instruction::VerifyByte { .. }
        | Instruction::WriteByte { .. }
        | Instruction::VerifyBit { .. }
        | Instruction::WriteBit { .. } => access_effect(heard.accessed(view.named)),
        _ => None,
    }
}

impl Mobile {
    /// Obeys a packet that it hears, and answers what becomes of the variables.
    pub fn obey(&mut self, view: &MobileView, heard: Heard) -> Option<Effect>
        ensures effect { result ≡ mobile_plan self.old.state view.now heard }
        ensures after { self.new.state ≡ mobile_after self.old.state view.now heard }
    {
        let acted = acts(&self.state, view, heard);
        let waiting = heard.waits_after(self.state.waiting);
        let reply = heard.reply(view.config, heard.accessed(view.named), acted);
        if acted {
            change(&mut self.state, view, heard);
        }
        self.state.waiting = waiting;
        self.state.reply = reply;
        if acted { effect(view, heard) } else { None }
    }
}
