use hex::FromHex;
use std::str::FromStr;

/// The number that decimal digits name, where the type has it.
pub(crate) fn decimal<N: FromStr>(word: &str) -> Option<N>
where
    N::Err: Drop,
{
    // The library's parser takes a sign, which a script does not have.
    if word.starts_with('+') {
        return None;
    }
    word.parse::<N>().ok()
}

/// The byte that two hexadecimal digits name.
pub(crate) fn hex_byte(word: &str) -> Option<u8> {
    let [byte] = <[u8; 1]>::from_hex(word).ok()?;
    Some(byte)
}
