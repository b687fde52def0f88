use crate::trouble::Trouble;
use std::{fs, io};

fn unreadable(rt: &HostRuntime, path: &str, error: io::Error) -> Result<Trouble, Trouble> {
    let path = String::from_str(rt.alloc(), path)?;
    Ok(Trouble::File { path, error })
}

/// The text of a file.
pub(crate) fn read_text(rt: &HostRuntime, path: &str) -> Result<String, Trouble> {
    fs::read_to_string(rt, path).try_map_err(|error| unreadable(rt, path, error))
}

/// The bytes of a file.
pub(crate) fn read_bytes(rt: &HostRuntime, path: &str) -> Result<Vec<u8>, Trouble> {
    fs::read(rt, path).try_map_err(|error| unreadable(rt, path, error))
}

/// The text of standard input.
pub(crate) fn read_input(rt: &HostRuntime) -> Result<String, Trouble> {
    let text = io::read_to_string(rt.alloc(), rt.stdin());
    text.try_map_err(|error| unreadable(rt, "standard input", error))
}
