//! The laws of a connection's streams, and of its answers about a document.

ghost use Rattle.hub_service.specs.AnswerLaws.{GotIsThere, PutIsStored};
ghost use Rattle.hub_service.specs.Laws.{CompleteChangesAreRight, CompleteListIsWhole};
ghost use Rattle.hub_service.specs.Laws.{CompleteUpdatesAreRight, StreamsOfChangesAreRight};
ghost use Rattle.hub_service.specs.Laws.{StreamsOfUpdatesAreRight};

/// The items that a connection sends of a feed are the front of a list that is rightly handed for the
/// request. To its end they are the whole of such a list. Its rows rise, each is its document's current row
/// at its step, and each passes the filter. No row is left out between the beginning of the feed and its
/// end. An answer that goes downwards is sent with its rows and its end.
pub fn streams_are_right()
    ensures changes { StreamsOfChangesAreRight }
    ensures all_changes { CompleteChangesAreRight }
    ensures updates { StreamsOfUpdatesAreRight }
    ensures all_updates { CompleteUpdatesAreRight }
    ensures listed { CompleteListIsWhole }
{}

/// A document that is got is there, and a document that is put is stored.
pub fn answers_are_right()
    ensures got { GotIsThere }
    ensures put { PutIsStored }
{}
