// The stream of a frontend (RFC 3656, 4.11).
ghost use Rattle.std.specs.Prelude.{◌≡◌, IfOk, OnOk};
ghost use Rattle.feed_core.specs.Feed.{replica_after};
ghost use Rattle.feed_core.specs.Stream.{update_line, is_update_tag, heard_by, heard};

use crate::fault::FeedFault;
use crate::replica::Replica;
use mupdate_codec::{MCommand, MResponse, Tag, UPDATE_TAG, print_command, response_in};
use mur_base::{Bytes, Memory};
use std::alloc::Global;

/// The bytes of a frontend's UPDATE.
#[tactic(auto, unfolding(crate::specs::Stream::update_line))]
pub fn update_line(alloc: Global) -> Result<Bytes, Memory>
    ensures { IfOk result (λ line. line ≡ update_line) }
{
    let tag = Tag::Text(Bytes::from_slice(alloc, UPDATE_TAG)?);
    print_command(alloc, &tag, &MCommand::Update)
}

fn is_update_tag(tag: &Tag) -> bool
    ensures { result ≡ is_update_tag tag.now }
{
    match tag {
        Tag::Star => false,
        Tag::Text(text) => text.as_slice() == UPDATE_TAG,
    }
}

impl Replica {
    // NO and BAD change nothing.
    fn take_any(&mut self, response: MResponse) -> Result<(), Memory>
        ensures { OnOk result (self.new ≡ replica_after self.old response) }
    {
        match self.take(response) {
            Ok(()) | Err(FeedFault::NoFeedLine) => Ok(()),
            Err(FeedFault::Memory) => Err(Memory),
        }
    }

    #[tactic(auto, unfolding(crate::specs::Stream::heard_by))]
    fn hear_response(&mut self, response: Option<(Tag, MResponse)>) -> Result<(), Memory>
        ensures { OnOk result (self.new ≡ heard_by self.old response) }
    {
        match response {
            Some((tag, response)) if is_update_tag(&tag) => self.take_any(response),
            _ => Ok(()),
        }
    }

    /// Takes what bytes are the line of, if they are one of the stream; any other line changes nothing. For want of memory the replica is
    /// spent. Logarithmic in the records.
    #[tactic(auto, unfolding(crate::specs::Stream::heard))]
    pub fn hear(&mut self, alloc: Global, line: &[u8]) -> Result<(), Memory>
        ensures { OnOk result (self.new ≡ heard self.old line.now) }
    {
        let response = response_in(alloc, line)?;
        self.hear_response(response)
    }
}
