// Bytes cut after each LF.
ghost use Rattle.std.specs.Prelude.{◌≡◌, ◌<◌, ◌∷◌, length};
ghost use Rattle.schedule_text.specs.Cuts.{cuts_of, cuts_left, without_end, line_in};

use memchr::memchr;

/// The pieces of a text, in order: each up to and with its LF, and the rest without one.
#[derive(Drop)]
pub struct LineCuts<'a> {
    rest: &'a [u8],
}

impl<'a> LineCuts<'a> {
    /// Cuts a text after each LF. The pieces together are the text, and none is empty.
    pub fn new(text: &'a [u8]) -> LineCuts<'a>
        ensures { cuts_left result ≡ cuts_of text.now }
    {
        LineCuts { rest: text }
    }
}

impl<'a> Iterator for LineCuts<'a> {
    ghost use Rattle.std.specs.Iterator.{YieldsFirstRef, item_count};
    ghost use Rattle.schedule_text.specs.Cuts.{cuts_left};

    type Item = &'a [u8];

    ghost next_gives = { YieldsFirstRef cuts_left };

    ghost remaining = { item_count cuts_left };

    #[tactic(auto, using(crate::proofs::CutLaws::by_first))]
    fn next(&mut self) -> Option<&'a [u8]> {
        if self.rest.is_empty() {
            return None;
        }
        let (piece, rest) = first_piece(self.rest);
        self.rest = rest;
        Some(piece)
    }
}

#[tactic(auto, using(crate::proofs::CutLaws::by_first), unfolding(crate::specs::Cuts::cuts_of))]
fn first_piece(text: &[u8]) -> (&[u8], &[u8])
    requires { 0 < length text.now }
    ensures { cuts_of text.now ≡ result.0.now ∷ cuts_of result.1.now }
{
    match memchr(b'\n', text) {
        Some(at) => text.split_at(at + 1),
        None => (text, &[]),
    }
}

/// A piece without its LF, and without a CR before that.
#[tactic(auto, unfolding(crate::specs::Cuts::line_in))]
pub fn line_in(piece: &[u8]) -> &[u8]
    ensures { result.now ≡ line_in piece.now }
{
    let line = without_end(piece, b'\n');
    if line.len() < piece.len() {
        without_end(line, b'\r')
    } else {
        piece
    }
}

#[tactic(auto, unfolding(crate::specs::Cuts::without_end))]
fn without_end(text: &[u8], end: u8) -> &[u8]
    ensures { result.now ≡ without_end text.now end }
{
    match text {
        [front @ .., last] if *last == end => front,
        _ => text,
    }
}
