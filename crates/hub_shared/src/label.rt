//! The labels of feeds' lanes.

ghost use Rattle.std.specs.Prelude.{◌≡◌};
ghost use Rattle.hub_params.specs.FeedShown.{params_asked};

use crate::block::Block;
use hub_feed::HostView;
use hub_lane::Kept;
use hub_params::FeedParams;
use std::marker::{Model, PhantomData};

/// The parameters of a feed of a host `S`, the sequence at which it began, and its life. A label allows those
/// lists of items to be sent for the feed that the host calls right for such a feed.
#[derive(Drop)]
pub struct FeedLabel<S> {
    params: FeedParams,
    since: u64,
    life: u64,
    host: PhantomData<S>,
}

impl<S> Model for FeedLabel<S> {
    ghost use Rattle.hub_params.specs.FeedShown.{params_asked};
    ghost use Rattle.hub_shared.specs.Label.{Label};

    ghost Value = { Label };

    ghost view = { λ a. record { asked = params_asked a.params; since = a.since; life = a.life } };
}

impl<S> FeedLabel<S> {
    pub(crate) fn new(params: FeedParams, since: u64, life: u64) -> FeedLabel<S>
        ensures { result ≡ record { asked = params_asked params; since = since; life = life } }
    {
        FeedLabel {
            params,
            since,
            life,
            host: PhantomData,
        }
    }

    /// The parameters of the feed. Constant time.
    pub fn params(&self) -> &FeedParams
        ensures { params_asked result.now ≡ self.now.asked }
    {
        &self.params
    }

    /// The sequence at which the feed began: its rows lie above. Constant time.
    pub fn since(&self) -> u64
        ensures { result ≡ self.now.since }
    {
        self.since
    }

    /// The number of the life of its sequences. Constant time.
    pub fn life(&self) -> u64
        ensures { result ≡ self.now.life }
    {
        self.life
    }
}

/// It allows a list of blocks where their items, one block after the other, are right for the feed.
impl<S: HostView> Kept<Block<S::Row>> for FeedLabel<S> {
    ghost use Rattle.hub_params.specs.FeedModel.{params_in};
    ghost use Rattle.hub_shared.specs.Blocks.{items_in};

    ghost allows = { λ l blocks. S.right (params_in l.asked) l.since (items_in blocks) };
}
