use fault::Refusal;

/// Every refusal, by its number.
const ALL: [Refusal; 22] = [
    Refusal::PacketLength,
    Refusal::ErrorByte,
    Refusal::ReservedAddress,
    Refusal::AdvancedFormat,
    Refusal::IdleForm,
    Refusal::NoInstruction,
    Refusal::ReservedInstruction,
    Refusal::InstructionLength,
    Refusal::AccessoryHead,
    Refusal::BlockLength,
    Refusal::UnknownKind,
    Refusal::BodyCutOff,
    Refusal::NonzeroFill,
    Refusal::FittedAddress,
    Refusal::BankFull,
    Refusal::TooFewCells,
    Refusal::LentTooShort,
    Refusal::NoSuchDecoder,
    Refusal::NumberOutOfRange,
    Refusal::FieldOutOfRange,
    Refusal::PlaceTooShort,
    Refusal::CellOutOfRange,
];

/// Prints every refusal with its number, its layer and its name.
pub(crate) fn show_refusals(rt: &HostRuntime) -> anyhow::Result<()> {
    for refusal in ALL {
        let number = refusal.number();
        let layer = refusal.layer();
        println!(rt; "{number} {layer}: {refusal}")?;
    }
    Ok(())
}
