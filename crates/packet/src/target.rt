// The broadcasts are no variants of their own: an address is written as it was read, the highest too.
/// Whom a packet is for. The highest basic and the highest extended address are broadcasts to their kind.
#[derive(Clone, Copy, PartialEq, Eq, Debug)]
pub enum Target {
    /// Nobody: the packet keeps the track busy.
    Idle,
    /// Every mobile decoder.
    Broadcast,
    /// A mobile decoder by its short address, 1 to 127.
    Short { address: u8 },
    /// A mobile decoder by its long address, 0 to 10239.
    Long { address: u16 },
    /// A basic accessory decoder, 0 to 510, or all of them, 511.
    Basic { address: u16 },
    /// An extended accessory decoder, 0 to 2046, or all of them, 2047.
    Extended { address: u16 },
}
