ghost use Rattle.std.specs.Prelude.{◌≤◌};

mod making;

// A byte string of at most 64 bytes, in fixed memory.
#[derive(Clone, Copy)]
pub struct Part {
    bytes: [u8; 64],
    len: usize,
    ghost fits: { len ≤ 64 },
}

// Who logs on, over memory of its own, and perhaps the number of a KDC.
#[derive(Clone, Copy)]
pub struct Identity {
    pub user: Part,
    pub account: Part,
    pub domain: Part,
    pub secret: Part,
    pub kdc: Option<u32>,
}
