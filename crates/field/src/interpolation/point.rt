/// A place and a value there.
#[derive(Clone, Copy)]
pub struct Point<F> {
    pub x: F,
    pub y: F,
}
