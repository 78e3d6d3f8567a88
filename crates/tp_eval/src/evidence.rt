//! What an evaluation goes by: the credentials that are presented, and what those of them say that are valid.
ghost use Rattle.std.specs.Prelude.{filter};
ghost use Rattle.tp_model.specs.Credentials as validity;
ghost use Rattle.tp_eval.specs.mirrors.Said.{IsIndexOf};

use crate::said::Said;
use tp_types::{CredId, Credential, Name};

/// The credentials that a subject presents at a clock, and what those say that are valid there.
#[derive(Clone, Copy)]
pub struct Evidence<'a, 'b> {
    /// All credentials, each at the place of its id.
    pub creds: &'a [Credential],
    /// Of whom they are to speak.
    pub subject: &'a Name,
    /// Those presented, in the subject's order.
    pub presented: &'a [CredId],
    /// The clock at which they are to be valid.
    pub clock: u64,
    /// Those revoked by then.
    pub revoked: &'a [CredId],
    /// What those presented say that are valid.
    pub said: &'b Said<'a>,
    ghost indexed: { IsIndexOf creds.now subject.now
        (filter (validity.is_valid_in creds.now clock revoked.now) presented.now)
        said.now.kinds.keys said.now.lists },
}
