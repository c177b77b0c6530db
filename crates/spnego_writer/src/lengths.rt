// The lengths of a token and of what it holds: the four fields, the sequence around them, the content, the whole.
#[derive(Clone, Copy)]
pub(crate) struct Lengths {
    pub body: usize,
    pub sequence: usize,
    pub content: usize,
    pub token: usize,
}
