//! The items of the trash.

ghost use Rattle.std.specs.Prelude.{◌≡◌, Some, option_and_then, option_copied, IfSome};
ghost use Rattle.nf_defs.specs.Prelude.{item_row};
ghost use Rattle.nf_words.specs.Trash.{item_if_of, lacks_item, own_item, untrashed};
ghost use Rattle.nf_decide.specs.Deciding.{asking_of};

use crate::deciding::Call;
use nf_base::{ItemRow, NodeId, UserId};
use nf_reach::Asker;
use nf_view::{View, item_row};
use nf_words::{Denial, TrashAsk};

/// The user's item of a node.
pub(crate) fn own_item<'a>(view: &'a View<'_>, user: UserId, node: NodeId) -> Option<&'a ItemRow>
    ensures own { option_copied result ≡ option_and_then (item_if_of user) (item_row view.now.tables.items node) }
    ensures there { IfSome result (λ item. item_row view.now.tables.items item.now.node ≡ Some item.now) }
{
    let item = item_row(view, node)?;
    if item.owner == user { Some(item) } else { None }
}

impl<'a> Call<'a> {
    /// What isn't there of what is asked about the trash.
    pub(crate) fn untrashed(&self, asker: &Asker<'_>, ask: &TrashAsk) -> Option<Denial>
        requires { asker.now ≡ asking_of self.now }
        ensures { result ≡ untrashed self.entry.now ask.now }
    {
        match ask {
            TrashAsk::List(_) | TrashAsk::Empty(_) => None,
            TrashAsk::Drop { item, .. } => self.lacks_item(asker, *item),
            TrashAsk::Restore { item, .. } => self.lacks_item(asker, *item),
        }
    }

    /// `not-found`, where the caller has no item of that node.
    #[tactic(auto, using(crate::proofs::Askers::user_asks))]
    fn lacks_item(&self, asker: &Asker<'_>, node: NodeId) -> Option<Denial>
        requires { asker.now ≡ asking_of self.now }
        ensures { result ≡ lacks_item (own_item self.entry.now node) }
    {
        match own_item(&self.view, asker.user(), node) {
            Some(_) => None,
            None => Some(Denial::NotFound),
        }
    }
}
