//! Sequences of a source as a follower keeps them.

ghost use Rattle.std.specs.Prelude.{◌≡◌};
ghost use Rattle.hub_follow_model.specs.Sequence.{beginning, lesser_seq, seq_in, seq_of};

/// A sequence of a source, with the number of its life where the life is known. A replication log may have a
/// sequence without a life.
#[derive(Clone, Copy, Debug, PartialEq, Eq)]
pub struct Seq {
    /// The number of the edit.
    pub n: u64,
    /// The number of the source's life to which the sequence belongs.
    pub life: Option<u64>,
}

impl Seq {
    /// The sequence before the first edit, of no known life: nothing was copied.
    pub fn beginning() -> Seq
        ensures { result ≡ beginning }
    {
        Seq { n: 0, life: None }
    }

    /// The sequence `n` of the life of this number.
    pub fn of_life(n: u64, life: u64) -> Seq
        ensures { result ≡ seq_of life n }
    {
        Seq {
            n,
            life: Some(life),
        }
    }

    /// The number `n` as it counts in this life: 0 where the sequence is of another life, and `n` where its
    /// life is not known.
    pub fn counted_in(self, life: u64) -> u64
        ensures { result ≡ seq_in life self }
    {
        match self.life {
            None => self.n,
            Some(of) if of == life => self.n,
            Some(_of) => 0,
        }
    }

    /// The lesser of two sequences, with the life that either has; the beginning where they are of two lives.
    pub fn lesser(self, other: Seq) -> Seq
        ensures { result ≡ lesser_seq self other }
    {
        let n = self.n.min(other.n);
        match (self.life, other.life) {
            (None, life) => Seq { n, life },
            (Some(life), None) => Seq::of_life(n, life),
            (Some(life), Some(of)) if life == of => Seq::of_life(n, life),
            (Some(_life), Some(_of)) => Seq::beginning(),
        }
    }
}
