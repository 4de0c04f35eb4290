//! Replies in a form of a few bytes.
ghost use Rattle.std.specs.Prelude.{◌≡◌};

use klp_model::Reply;
use klp_types::{ObjId, PatchId};
use std::marker::Model;

/// The kinds of a [`BriefReply`], each with the values of that kind.
#[derive(Drop)]
pub enum Brief {
    /// [`Reply::Done`].
    Done,
    /// [`Reply::Started`].
    Started,
    /// [`Reply::Reversed`].
    Reversed,
    /// [`Reply::Pending`].
    Pending(u8),
    /// [`Reply::Completed`].
    Completed(bool),
    /// [`Reply::PreFailed`].
    PreFailed(PatchId, ObjId, i32),
    /// [`Reply::Freed`].
    Freed(u16),
}

/// A [`Reply`] that has no frames of a task and no value of a variable. It is smaller than `Reply`, which needs room
/// for both. Most events reply in this form, because passing a whole `Reply` from function to function costs more than
/// refusing an event. In contracts a `BriefReply` is the `Reply` to which it is converted.
#[derive(Drop)]
pub struct BriefReply(pub Brief);

impl Model for BriefReply {
    ghost use Rattle.klp_model.specs.declared.event.Reply.{Reply};
    ghost use Rattle.klp_manager_state.specs.Brief.{reply_of};

    ghost Value = { Reply };

    ghost view = { λ r. reply_of r.0 };
}

impl BriefReply {
    /// Returns the same reply as a [`Reply`].
    #[inline(always)]
    pub fn reply(&self) -> Reply
        ensures { result ≡ self.now }
    {
        match self.0 {
            Brief::Done => Reply::Done,
            Brief::Started => Reply::Started,
            Brief::Reversed => Reply::Reversed,
            Brief::Pending(tasks) => Reply::Pending(tasks),
            Brief::Completed(target) => Reply::Completed(target),
            Brief::PreFailed(patch, object, status) => Reply::PreFailed(patch, object, status),
            Brief::Freed(count) => Reply::Freed(count),
        }
    }
}
