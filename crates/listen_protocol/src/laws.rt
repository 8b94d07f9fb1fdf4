//! Laws of the definitions. Nothing is done when they run.

ghost use Rattle.listen_protocol.specs.Laws.{CountingIsLive, LiveIsCounted, ToldKeysAreTold};

/// The set of told keys that is kept message by message has exactly the keys that are told, in ascending order.
pub fn told_keys_are_told()
    ensures { ToldKeysAreTold }
{}

/// The number of open incarnations and the last request tell which incarnation is live, and which id is asked.
pub fn live_is_counted()
    ensures { LiveIsCounted }
{}

/// What counts is live, and what is live is asked.
pub fn counting_is_live()
    ensures { CountingIsLive }
{}
