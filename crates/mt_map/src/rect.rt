/// A rectangle in pixels, by its left upper corner and its size.
#[derive(Clone, Copy)]
pub struct Rect {
    pub x: u64,
    pub y: u64,
    pub width: u64,
    pub height: u64,
}
