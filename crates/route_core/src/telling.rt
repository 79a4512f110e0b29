//! The messages of look-ups, redirects and doubted routes, told to the sockets.
ghost use Rattle.std.specs.Prelude.{◌≡◌, None, map};
ghost use Rattle.listeners.specs.Sockets.{delivered};
ghost use Rattle.route_core.specs.Messages.{gate_family as family_of_gate, notice_family as family_of, notice_message as message_of, notice_told};
ghost use Rattle.route_core.specs.Telling.{delivered_all};

use crate::messages::put_notice;
use listeners::Listeners;
use route_msgs::Message;
use route_ops::Notice;
use sock_addrs::Gate;
use sock_addrs::families::{AF_INET, AF_LINK};

/// Tells the sockets of look-ups and redirects, one after another.
#[tactic(auto, using(crate::proofs::ToldInTurn::told_next))]
pub(crate) fn tell(listeners: &mut Listeners, notices: &[Notice])
    ensures { listeners.new ≡ delivered_all (map notice_told notices.now) listeners.old }
{
    for notice in notices {
        tell_one(listeners, notice);
    }
}

/// Tells the sockets of one of them.
pub(crate) fn tell_one(listeners: &mut Listeners, notice: &Notice)
    ensures { listeners.new ≡ delivered (message_of notice.now) (family_of notice.now) None listeners.old }
{
    let mut message = Message::new();
    put_notice(notice, &mut message);
    listeners.deliver(&message, notice_family(notice), None);
}

/// The family of an address.
fn gate_family(gate: &Gate) -> u8
    ensures { result ≡ family_of_gate gate.now }
{
    match gate {
        Gate::Inet(_) => AF_INET,
        Gate::Link(_) => AF_LINK,
    }
}

/// The family of those who hear a notice: its destination's.
fn notice_family(notice: &Notice) -> u8
    ensures { result ≡ family_of notice.now }
{
    match notice {
        Notice::Miss { about, .. } | Notice::Resolve { about } => gate_family(about),
        Notice::Redirect { .. } | Notice::Losing { .. } => AF_INET,
    }
}
