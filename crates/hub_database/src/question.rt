//! Questions to a database, and their answers.

ghost use Rattle.std.specs.Prelude.{◌≡◌, option_map, IsSome};
ghost use Rattle.hub_database.specs.Database.{IsRead};
ghost use Rattle.hub_database.specs.Answers.{IsAnswer, TakesMemory, local_named};
ghost use Rattle.hub_database.specs.Locals.{local_of};

use crate::answers::{Diff, Info, Lookup, OpenRev};
use crate::batch::DbFault;
use crate::database::DbState;
use crate::descending::Descending;
use crate::local::Local;
use hub_document::{Asked, OpenRevs};
use hub_params::FeedParams;
use hub_revtree::Winner;

/// A question to a database.
#[derive(Debug, Drop)]
pub enum Question {
    /// The numbers of documents and of edits.
    Info,
    /// A document, with its history where `revs` asks for it.
    Get {
        id: String,
        revs: bool,
    },
    /// The winner of a document, with its mark.
    Winner {
        id: String,
    },
    /// Revisions of a document, each with its history where `revs` asks for it.
    OpenRevs {
        id: String,
        which: OpenRevs,
        revs: bool,
    },
    /// The revisions among these that are missing.
    RevsDiff(Vec<Asked>),
    /// A feed that goes downwards.
    Descending(FeedParams),
    /// A local document.
    Local {
        id: String,
    },
}

/// The answer to a question.
#[derive(Debug, Drop)]
pub enum Answer {
    Info(Info),
    Get(Lookup),
    /// None where there is no such document.
    Winner(Option<Winner>),
    OpenRevs(Vec<OpenRev>),
    RevsDiff(Vec<Diff>),
    Descending(Descending),
    Local(Option<Local>),
}

impl DbState {
    /// A copy of the local document of this id. The cost is a look in the map of local documents, and the
    /// copy. `NoMemory` comes only where there is such a document.
    pub fn local_copy(&self, id: &str) -> Result<Option<Local>, DbFault>
        ensures { let local = local_of self.now.locals id.now in
            IsRead self.now result (λ found. option_map (local_named id.now) found ≡ local) (IsSome local) }
    {
        match self.local_get(id)? {
            Some(local) => Ok(Some(local.copy(self.contents.alloc)?)),
            None => Ok(None),
        }
    }

    /// The database's answer to a question. It waits for nobody. The cost is that of the call of the
    /// question's kind, and for a local document a copy. `NoMemory` comes only where the answer takes
    /// memory.
    pub fn answer(&self, question: Question) -> Result<Answer, DbFault>
        ensures { IsRead self.now result (IsAnswer self.now question) (TakesMemory self.now question) }
    {
        match question {
            Question::Info => Ok(Answer::Info(self.info()?)),
            Question::Get { id, revs } => Ok(Answer::Get(self.get(id.as_str(), revs)?)),
            Question::Winner { id } => {
                self.standing()?;
                Ok(Answer::Winner(self.winner(id.as_str())))
            }
            Question::OpenRevs { id, which, revs } => Ok(Answer::OpenRevs(self.open_revs(
                id.as_str(),
                &which,
                revs,
            )?)),
            Question::RevsDiff(asked) => Ok(Answer::RevsDiff(self.revs_diff(asked)?)),
            Question::Descending(params) => Ok(Answer::Descending(self.changes_descending(
                &params,
            )?)),
            Question::Local { id } => Ok(Answer::Local(self.local_copy(id.as_str())?)),
        }
    }
}
