//! The takers of the items of feeds.

ghost use Rattle.std.specs.Prelude.{◌≡◌, ◌++◌, ◌∷◌, [], List, IfErr, OnErr, OnOk};
ghost use Rattle.hub_feed.specs.Hand.{MayTake};

/// A taker of items, seen as the items that it took: the subscriber of a feed, or a plain list.
pub trait Sink<I> {
    /// The lists of items that the sink may have taken.
    ghost allows: { Self → List I → Type 0 };

    /// The items that the sink took, the first item first.
    ghost sent: { Self → List I };

    /// The sink after it took one more item.
    ghost behind: { Self → I → Self };

    /// Gives up an item that is needed no more: its memory may serve the next item. A sink without such items
    /// gives none, as this body says. It takes no memory.
    fn spare(&mut self) -> Option<I>
        ensures { self.new ≡ self.old }
    {
        None
    }
}

/// A handle by which a sink is given items. The kind of handle says when a sink refuses an item. Code with
/// this bound learns of a refusal (`refuses`) only by a call of `push`.
pub trait Pushes<K: Sink<I>, I> {
    /// The fact that holds of a sink that gave this item back.
    ghost refuses: { Self → K → I → Type 0 };

    /// Gives the sink an item. Where the item comes back, the sink is as it was. It takes no memory.
    fn push(&self, sink: &mut K, item: I) -> Result<(), I>
        requires may { MayTake K.allows K.sent sink.old item }
        ensures taken { OnOk result (sink.new ≡ K.behind sink.old item) }
        ensures same { IfErr result (λ back. (back ≡ item) × (sink.new ≡ sink.old)) }
        ensures full { OnErr result (refuses self.now sink.old item) };

    /// After a push the sink has taken its earlier items, and then this item.
    ghost sends: { (sink : K) (item : I) → K.sent (K.behind sink item) ≡ K.sent sink ++ item ∷ [] };

    /// After a push the sink still allows the lists that it allowed.
    ghost keeps: { (sink : K) (item : I) (items : List I)
        → K.allows sink items → K.allows (K.behind sink item) items };
}
