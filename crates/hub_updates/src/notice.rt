//! Notices that a database was created, updated or deleted.

ghost use Rattle.std.specs.Prelude.{◌≡◌, IfOk};
ghost use Rattle.hub_model.specs.Updates.{id_of, kind_of, letter_of, note_of};

use hub_model::UpdateKind;
use std::alloc::{AllocError, Global};
use std::marker::Model;

// The letter of a kind.
fn letter_of(kind: UpdateKind) -> char
    ensures { result ≡ letter_of kind }
{
    match kind {
        UpdateKind::Created => 'c',
        UpdateKind::Updated => 'u',
        UpdateKind::Deleted => 'd',
    }
}

// The kind of a letter.
fn kind_of(letter: u8) -> UpdateKind
    ensures { result ≡ kind_of letter }
{
    match letter {
        b'c' => UpdateKind::Created,
        b'u' => UpdateKind::Updated,
        _ => UpdateKind::Deleted,
    }
}

/// The kind of the event and the name of the database, from the id of a pair.
pub(crate) fn read_id(id: &str) -> (UpdateKind, &str)
    requires { id_of (note_of id.now) ≡ id.now }
    ensures kind { result.0 ≡ (note_of id.now).kind }
    ensures name { result.1.now ≡ (note_of id.now).name }
{
    (kind_of(id.as_bytes()[0]), &id[1..])
}

/// An event of a database that is not in the log yet. Its owner spends it, by `UpdatesState::note` or by
/// `lapse`: a notice can't be dropped.
#[derive(Debug)]
pub struct Notice {
    /// The id of the notice's pair: the letter of the kind, and then the name.
    id: String,
}

impl Model for Notice {
    ghost use Rattle.std.specs.Prelude.{◌≡◌, string_bytes};
    ghost use Rattle.hub_model.specs.Updates.{Note, id_of, note_of};

    ghost Value = { Note };

    ghost view = { λ a. note_of (string_bytes a.id) };

    ghost invariant = { λ a. id_of (note_of (string_bytes a.id)) ≡ string_bytes a.id };
}

impl Notice {
    /// A notice of an event of this kind, of the database of this name. It copies the name: one allocation.
    pub fn new(alloc: Global, kind: UpdateKind, name: &str) -> Result<Notice, AllocError>
        ensures { IfOk result (λ notice. notice ≡ record { kind = kind; name = name.now }) }
    {
        let mut id = String::with_capacity(alloc, name.len() + 1)?;
        id.push(letter_of(kind))?;
        id.push_str(name)?;
        Ok(Notice { id })
    }

    /// The id of the notice's pair.
    pub(crate) fn id(&self) -> &str
        ensures { result.now ≡ id_of self.now }
    {
        self.id.as_str()
    }

    /// The kind of the event.
    pub fn kind(&self) -> UpdateKind
        ensures { result ≡ self.now.kind }
    {
        read_id(self.id.as_str()).0
    }

    /// The name of the database.
    pub fn name(&self) -> &str
        ensures { result.now ≡ self.now.name }
    {
        read_id(self.id.as_str()).1
    }

    /// Spends the notice, and adds no note to the log. It takes no memory.
    pub fn lapse(self) {
        let Notice { id: _ } = self;
    }
}
