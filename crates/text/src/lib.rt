#![tactic(auto)]

ghost use Rattle.std.specs.Prelude.{◌≡◌, ◌+◌, ◌≤◌, ◌∷◌, length};
ghost use Rattle.text.specs.Cases.{same_ignoring_case};
ghost use Rattle.text.specs.Pieces.{pieces, up_to, behind, others, after_last, pieces_left, seen};

mod walk;

pub use walk::Pieces;

// The text up to the first mark, and what stands behind it, if there is one.
pub fn split_once(text: &[u8], mark: u8) -> (&[u8], Option<&[u8]>)
    ensures first { result.0.now ≡ up_to mark text.now }
    ensures second { seen result.1 ≡ behind mark text.now }
    ensures walks { pieces mark text.now ≡ result.0.now ∷ others mark (seen result.1) }
{
    match text.iter().position(|x| *x == mark) {
        Some(i) => (&text[..i], Some(&text[i + 1..])),
        None => (text, None),
    }
}

// The pieces of the text between the marks, in order.
#[tactic(auto, using(crate::proofs::Cuts::pieces_count))]
pub fn pieces(text: &[u8], mark: u8) -> Pieces<'_>
    ensures all { pieces_left result ≡ pieces mark text.now }
    ensures count { length (pieces_left result) ≤ length text.now + 1 }
{
    Pieces {
        rest: Some(text),
        mark,
    }
}

// What stands behind the last mark: the whole text if there is none.
pub fn after_last(text: &[u8], mark: u8) -> &[u8]
    ensures { result.now ≡ after_last mark text.now }
{
    pieces(text, mark).last().unwrap_or(text)
}

// Whether two texts are equal when ASCII case is ignored.
#[tactic(auto, unfolding(crate::specs::Cases::same_ignoring_case))]
pub fn eq_ignore_ascii_case(a: &[u8], b: &[u8]) -> bool
    ensures { result ≡ same_ignoring_case a.now b.now }
{
    a.eq_ignore_ascii_case(b)
}
