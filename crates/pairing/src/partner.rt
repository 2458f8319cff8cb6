//! Which receive belongs to a send, and which send to a receive.

ghost use Rattle.pairing.specs.Partners.{PartnersAreMutual, PartnersAreNotShared, PartnersStay, MessagesDoNotOvertake};

/// Partners are mutual: if a half of a call has a partner, that partner's half has the call as its
/// partner.
pub fn partners_are_mutual()
    ensures { PartnersAreMutual }
{}

/// Two sends never have the same receive as partner, nor two receives the same send: if the halves of
/// two calls have one partner, they are one call.
pub fn partners_are_not_shared()
    ensures { PartnersAreNotShared }
{}

/// Partners stay: a partner over a recording is the partner over each longer recording, whose lists go on.
pub fn partners_stay()
    ensures { PartnersStay }
{}

/// Messages do not overtake: of two sends of one envelope, the earlier one's receive is the earlier, and
/// the same with sends and receives exchanged.
pub fn messages_do_not_overtake()
    ensures { MessagesDoNotOvertake }
{}
