use anyhow::anyhow;
use bank::Kind;
use decoder::{Address, Basic, Extended, Mobile};
use fault::Fault;
use memory::ByteMemory;
use roster::BanksMut;
use script::{Answer, Call, DecoderName, Fit, Request};
use std::alloc::Global;

/// Asks the first decoder of a kind for its state.
fn state_of(kind: Kind) -> Call<'static> {
    Call::Ask(DecoderName { kind, number: 0 }, Request::State)
}

/// What came of a block, and then the states of the three decoders.
pub(crate) fn try_block(heap: Global, block: &[u8]) -> anyhow::Result<[Result<Answer, Fault>; 4]> {
    let fits = [
        Fit::Mobile(Address::Short(3)),
        Fit::Basic(1),
        Fit::Extended(1),
    ];
    let calls = [
        Call::Take(block),
        state_of(Kind::Mobile),
        state_of(Kind::Basic),
        state_of(Kind::Extended),
    ];
    let mut banks = BanksMut {
        mobiles: &mut [Mobile::new()],
        basics: &mut [Basic::new(0)],
        extendeds: &mut [Extended::new(0)],
    };
    let mut cells = vec![in heap; 0u8; 3072]?;
    let mut memory = ByteMemory::new(&mut cells);
    let mut numbers = [Ok(0); 3];
    let mut answers = [Ok(Answer::Set); 4];
    board::run(
        &fits,
        &calls,
        &mut banks,
        &mut memory,
        &mut numbers,
        &mut answers,
    )
    .map_err(|_| anyhow!("there are too few places for the answers"))?;
    Ok(answers)
}
