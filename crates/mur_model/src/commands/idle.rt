// IDLE, whose line has come (RFC 9051, 6.3.13).
ghost use Rattle.std.specs.Prelude.{◌≡◌, IfOk, codes};
ghost use Rattle.imap_types.specs.Reply.{completed};
ghost use Rattle.mur_model.specs.Act.{idled};
ghost use Rattle.mur_model.specs.AtOnce.{is_done};
ghost use Rattle.mur_model.specs.Left.{replied};
ghost use Rattle.mur_model.specs.Need.{begun_of};
ghost use Rattle.mur_model.specs.Needed.{Turned, at_mailbox};
ghost use Rattle.mur_model.specs.declared.work.NewsFor.TheVariants.{Idle};
ghost use Rattle.mur_model.specs.declared.work.ViewWork.TheVariants.{News};

use crate::commands::noop::news_asks;
use crate::need::Begun;
use crate::session::Turn;
use crate::view::View;
use crate::work::NewsFor;
use imap_types::{BadText, Verdict, completed};
use mur_base::{Bytes, Memory};
use std::alloc::Global;

/// Whether a line ends an IDLE.
#[tactic(auto, unfolding(crate::specs::AtOnce::is_done))]
fn is_done(line: &[u8]) -> bool
    ensures { result ≡ is_done line.now }
{
    line.eq_ignore_ascii_case(b"done")
}

/// What IDLE needs with its line, where no mailbox is selected.
pub fn idled_in(alloc: Global, line: &Bytes) -> Result<Begun, Memory>
    ensures { IfOk result (λ begun. begun ≡ begun_of (idled line.now (Turned (replied (completed (codes "IDLE")))))) }
{
    if !is_done(line.as_slice()) {
        return Ok(Begun::refused(alloc, Verdict::Bad(BadText::Syntax)));
    }
    Ok(Begun::told(Turn {
        session: None,
        reply: completed(alloc, b"IDLE")?,
    }))
}

/// What IDLE needs with its line, in a session that has this view.
pub fn idled_selected(alloc: Global, view: &View, line: &Bytes) -> Result<Begun, Memory>
    ensures { IfOk result (λ begun. begun ≡ begun_of (idled line.now (at_mailbox view.now (News Idle)))) }
{
    if !is_done(line.as_slice()) {
        return Ok(Begun::refused(alloc, Verdict::Bad(BadText::Syntax)));
    }
    news_asks(alloc, view, NewsFor::Idle)
}
