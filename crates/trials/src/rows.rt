use packet::Packet;
use reader::read;
use std::alloc::{AllocError, Global};
use words::InWords;
use writer::write;

/// The bytes that a text names in hexadecimal, as far as it does.
fn bytes_of(heap: Global, text: &str) -> Result<Vec<u8>, AllocError> {
    text.split_whitespace()
        .map_while(|word| u8::from_str_radix(word, 16).ok())
        .collect(heap)
}

/// Whether a packet that reads so is written to the same bytes.
fn is_written_back(packet: Packet, bytes: &[u8]) -> bool {
    let mut place = [0u8; 6];
    write(packet, &mut place).is_ok_and(|count| place.get(0..count) == Some(bytes))
}

fn said(heap: Global, bytes: &[u8]) -> Result<String, AllocError> {
    match read(bytes) {
        Ok(packet) if is_written_back(packet, bytes) => InWords(packet).to_string(heap),
        Ok(_) => String::from_str(heap, "something that is written otherwise"),
        Err(fault) => {
            let number = fault.refusal.number();
            format!(in heap; "refused {number}")
        }
    }
}

/// Whether a line is no row: one that is empty or begins with `#`.
pub(crate) fn is_comment(line: &str) -> bool {
    line.is_empty() || line.starts_with('#')
}

/// What the bytes of a row, `BYTES = WORDS`, say where that is not what the row expects.
pub(crate) fn judge(heap: Global, row: &str) -> Result<Option<String>, AllocError> {
    let Some((left, right)) = row.split_once(" = ") else {
        return Ok(Some(String::from_str(heap, "no row of the table")?));
    };
    let bytes = bytes_of(heap, left)?;
    let found = said(heap, bytes.as_slice())?;
    Ok((found.as_str() != right).then_some(found))
}
