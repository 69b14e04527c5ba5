//! The definitions that every crate's contracts use (`specs/`), the types that code and definitions share,
//! and the laws between the definitions. Each law is the contract of a function that does nothing.
#![tactic(auto)]

ghost use Rattle.hub_model.specs.Laws.{KnownIsTested, HistoryIsTested, AcceptableIsTested, LeavesAreListed};
ghost use Rattle.hub_model.specs.Laws.{LeavesHaveEdits, WinnerIsFirst, LineIsWalk, PathIsFront};
ghost use Rattle.hub_model.specs.Laws.{ShownIsRight, NoneIsShown, RowsAreCurrent, RowsRise, MergesTake};
ghost use Rattle.hub_model.specs.Laws.{MergesTakeAll, MergesAnswerEach, MergesStayLegal, DraftsStayLegal};
ghost use Rattle.hub_model.specs.Laws.{DraftsExtend, DraftsTake, KnownHasLeaf, MissingIsUnknown};
ghost use Rattle.hub_model.specs.FeedLaws.{OpenedFits, GrownFits, HandedFits, WaitingFits, BeatFits};
ghost use Rattle.hub_model.specs.FeedLaws.{ExpiredFits, EndedFits, FinishedFits, LimitedEnds};
ghost use Rattle.hub_model.specs.RowKind.{change_rows, update_rows};
ghost use Rattle.hub_model.specs.Updates.{NotesReadBack};
ghost use Rattle.hub_model.specs.WorkedHistories.{LateIsStored, LateIsJoined, PartialIsStored};
ghost use Rattle.hub_model.specs.WorkedFeeds.{FallsAfterTwo, FallsAfterAll};
ghost use Rattle.hub_model.specs.WorkedFeeds.{FallsByLife, FallsOnce, UpdatesAgain};

mod arms;
mod feeds;
mod outcomes;
mod places;
mod updates;

pub use feeds::{Item, Mode, Since, Style};
pub use outcomes::{Fault, Outcome};
pub use places::{place_near, place_of};
pub use updates::UpdateKind;

/// The tests of known revisions, histories, acceptable edits and missing revisions decide their relations.
pub fn tests_decide()
    ensures known { KnownIsTested }
    ensures history { HistoryIsTested }
    ensures acceptable { AcceptableIsTested }
    ensures missing { MissingIsUnknown }
{}

/// The leaves of a document are its known revisions that stand behind no other, each once, best first. The
/// first leaf is the winner. A document with a known revision has a leaf.
pub fn leaves_are_listed()
    ensures listed { LeavesAreListed }
    ensures edits { LeavesHaveEdits }
    ensures winner { WinnerIsFirst }
    ensures some { KnownHasLeaf }
{}

/// A revision with a body is shown, with the revisions behind it, its mark and its body.
pub fn showing()
    ensures line { LineIsWalk }
    ensures front { PathIsFront }
    ensures right { ShownIsRight }
    ensures none { NoneIsShown }
{}

/// The current rows are the edits that no later edit of their document follows, in rising sequence.
pub fn current_rows()
    ensures entries { RowsAreCurrent }
    ensures rise { RowsRise }
{}

/// Storing edits and drafts agrees with the relations, and keeps a legal journal legal.
pub fn storing()
    ensures one { MergesTake }
    ensures all { MergesTakeAll }
    ensures each { MergesAnswerEach }
    ensures merged { MergesStayLegal }
    ensures drafted { DraftsStayLegal }
    ensures extended { DraftsExtend }
    ensures drafts { DraftsTake }
{}

/// The items that a feed of changes or of updates has handed fit the feed, at its opening and after each step
/// or edit. So the list of the items is rightly handed at any moment.
pub fn feeds_fit()
    ensures opened { OpenedFits change_rows × OpenedFits update_rows }
    ensures grown { GrownFits change_rows × GrownFits update_rows }
    ensures handed { HandedFits change_rows × HandedFits update_rows }
    ensures waiting { WaitingFits change_rows × WaitingFits update_rows }
    ensures beat { BeatFits change_rows × BeatFits update_rows }
    ensures expired { ExpiredFits change_rows × ExpiredFits update_rows }
    ensures ended { EndedFits change_rows × EndedFits update_rows }
    ensures finished { FinishedFits change_rows × FinishedFits update_rows }
    ensures limited { LimitedEnds change_rows × LimitedEnds update_rows }
{}

/// A note of the log of updates is read back from the id of its edit.
pub fn notes_read_back()
    ensures notes { NotesReadBack }
{}

/// Worked cases of histories that end above the first generation. A later edit may bring the parent of a
/// known revision. A known head changes nothing, and another parent contradicts.
pub fn worked_histories()
    ensures stored { LateIsStored }
    ensures joined { LateIsJoined }
    ensures partial { PartialIsStored }
{}

/// Worked cases: descending answers over a small journal, and the rows of a small log of updates.
pub fn worked_feeds()
    ensures two { FallsAfterTwo }
    ensures all { FallsAfterAll }
    ensures life { FallsByLife }
    ensures once { FallsOnce }
    ensures again { UpdatesAgain }
{}
