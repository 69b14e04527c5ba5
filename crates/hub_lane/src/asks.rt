//! How an end asks the queue.

ghost use Rattle.std.specs.Prelude.{◌≡◌, [], ◌∷◌, ◌++◌, IfErr, IfNone, IfSome, OnErr, OnOk};
ghost use Rattle.hub_lane.specs.Ends.{IsAllowedBeginning, behind_push, behind_take};

use crate::ends::{Receiver, Sender};
use crate::rule::{Kept, Push, Take};
use std::sync::Wait;

/// A handle by which a lane is asked: every handle that may wait is one. Code with this bound knows nothing
/// of `refuses` and `lacks` but from a call of this trait. So a layer that has this bound, and not `Wait`
/// alone, can't answer that a lane is full, or empty, without asking it.
pub trait Asks<L: Kept<I>, I>: Wait {
    ghost use Rattle.hub_lane.specs.Ends.{SenderState, ReceiverState};

    /// It holds of a sender whose item was refused: the lane was full at a moment of the call.
    ghost refuses: { Self → SenderState L I → I → Type 0 };

    /// It holds of a receiver that got no item: the lane was empty at a moment of the call.
    ghost lacks: { Self → ReceiverState L I → Type 0 };

    /// Sends an item where there is room, for `Sender::push`. It takes no memory.
    fn offer(&self, sender: &mut Sender<L, I>, item: I) -> Result<(), I>
        requires allowed { L.allows sender.old.label (sender.old.sent ++ item ∷ []) }
        ensures sent { OnOk result (sender.new ≡ behind_push sender.old item) }
        ensures same { IfErr result (λ back. (back ≡ item) × (sender.new ≡ sender.old)) }
        ensures full { OnErr result (refuses self.now sender.old item) };

    /// Takes the front item where there is one, for `Receiver::take`. It takes no memory.
    fn poll(&self, receiver: &mut Receiver<L, I>) -> Option<I>
        ensures taken { IfSome result (λ item. receiver.new ≡ behind_take receiver.old item) }
        ensures same { IfNone result (receiver.new ≡ receiver.old) }
        ensures none { IfNone result (lacks self.now receiver.old) }
        ensures allowed { IsAllowedBeginning L.allows receiver.new };
}

/// By asking the queue itself.
impl<L: Kept<I>, I, R: Wait> Asks<L, I> for R {
    ghost use Rattle.hub_lane.specs.Ends.{HasBeenFull};

    // At that moment the lane held as many items as it may, after the items that were taken by then.
    ghost refuses = { λ rt sender item. HasBeenFull sender.capacity sender.sent };

    // The items that were taken are all that were sent by that moment, and the label allows these.
    ghost lacks = { λ rt receiver. L.allows receiver.label receiver.taken };

    fn offer(&self, sender: &mut Sender<L, I>, item: I) -> Result<(), I> {
        sender
            .lane
            .queue
            .push_as::<Push, R>(self, &mut sender.pass, item)
    }

    fn poll(&self, receiver: &mut Receiver<L, I>) -> Option<I> {
        receiver
            .lane
            .queue
            .pop_as::<Take<L>, R>(self, &mut receiver.pass)
    }
}
