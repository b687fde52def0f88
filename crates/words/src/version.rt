/// The version of the board and its programs, which is the newest one in CHANGELOG.md.
pub const VERSION: &str = "0.1.0";
