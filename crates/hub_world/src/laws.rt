//! The laws of every run, by the definitions alone. Each law is the contract of a function with an empty
//! body.

ghost use Rattle.hub_world.specs.Laws.{IsAnswered, IsOnlyAnswer, RunsOnce, StaysLegal, KeepsFitting};
ghost use Rattle.hub_world.specs.Laws.{HandsRightly, TakesInOrder, HoldsTheRest, LanesAreLimited};
ghost use Rattle.hub_world.specs.Headline.{Headline};
ghost use Rattle.hub_world.specs.Worked.{AgainIsLater, StylesList, BoundHolds, LaneFills, TakesAFront};
ghost use Rattle.hub_world.specs.Worked.{LongpollWaits, TimeEnds, WritesAnswer, BeatsAreAsked};
ghost use Rattle.hub_world.specs.Worked.{DeletionEnds, LimitCountsRows, LivesCount, FeedsAreCounted};

/// Over every list of events the items that a feed's connection has taken are a prefix of the items that the
/// feed handed out. The rows among these are in strictly rising sequence. Each row is its document's current
/// row at its step, passes the filter, and is not above last_seq. Nothing comes after the end. Every current
/// passing row between since and the feed's place is among them.
pub fn headline()
    ensures { Headline }
{}

/// From each world each event has exactly one step, and each list of events one run.
pub fn answers()
    ensures some { IsAnswered }
    ensures only { IsOnlyAnswer }
    ensures runs { RunsOnce }
{}

/// After every run each edit of the journal was acceptable after the edits before it.
pub fn stays_legal()
    ensures { StaysLegal }
{}

/// A list of handed items that fits its feed fits it after each event, with the item that the event handed.
pub fn keeps_fitting()
    ensures { KeepsFitting }
{}

/// Over every run the items that a feed handed are rightly handed for the journal at the end, and the items
/// that were taken are a prefix of them. The rest lies in the feed's lane until the feed is finished. No lane
/// holds more items than the limit says.
pub fn hands_and_takes()
    ensures rightly { HandsRightly }
    ensures in_order { TakesInOrder }
    ensures held { HoldsTheRest }
    ensures limited { LanesAreLimited }
{}

/// Worked runs of some small databases, by the definitions.
pub fn worked_runs()
    ensures again { AgainIsLater }
    ensures styles { StylesList }
    ensures bound { BoundHolds }
    ensures lane { LaneFills }
    ensures front { TakesAFront }
    ensures longpoll { LongpollWaits }
    ensures time { TimeEnds }
    ensures writes { WritesAnswer }
    ensures beats { BeatsAreAsked }
    ensures deletion { DeletionEnds }
    ensures limit { LimitCountsRows }
    ensures lives { LivesCount }
    ensures feeds { FeedsAreCounted }
{}
