// What reading a part of an image gives.

// Its value, and the place of the bit behind it.
#[derive(Clone, Copy)]
pub struct Part<A> {
    pub value: A,
    pub next: usize,
}
