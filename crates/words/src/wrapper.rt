/// A target, an instruction or a packet that is to be printed in words.
#[derive(Clone, Copy)]
pub struct InWords<T>(pub T);
