// What a post can be told. Assumes nothing.

#[derive(Clone, Copy)]
pub enum Told<'a> {
    Tick,
    // bytes came from the line before it
    Frame(&'a [u8]),
    ButtonDown,
    ButtonUp,
}
