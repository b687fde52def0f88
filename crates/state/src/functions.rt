// An array, which is `Copy`, and no collection: there is no heap, and there are 69 whatever happens.
/// The functions F0, which is FL, to F68, on or off.
#[derive(Clone, Copy)]
pub struct Functions {
    pub on: [bool; 69],
}
