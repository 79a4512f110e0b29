//! What is answered where something was tried.
ghost use Rattle.std.specs.Prelude.{◌≡◌};
ghost use Rattle.route_core.specs.Tried.{answer_to as answer_of, done_or_refused as answer_of_done};

use crate::Answer;
use sock_addrs::Errno;

/// What came of it, or why it was refused.
pub(crate) fn answer_to<'a>(tried: Result<Answer<'a>, Errno>) -> Answer<'a>
    ensures { result ≡ answer_of tried.entry }
{
    match tried {
        Ok(answer) => answer,
        Err(errno) => Answer::Refused(errno),
    }
}

/// That it was done, or why it was refused.
pub(crate) fn done_or_refused(tried: Result<(), Errno>) -> Answer<'static>
    ensures { result ≡ answer_of_done tried }
{
    answer_to(tried.map(|()| Answer::Done))
}
