// What every keeper hears.
ghost use Rattle.setting.specs.Tracing.{KeepersHear};

use crate::keeper::Keeper;
use layout::Layout;

// Whatever is played, a keeper keeps what the words that were put tell it, and nothing else, in every layout.
pub fn keepers_hear<L: Layout, K: Keeper>(_layout: &L, _keeper: &K)
    ensures { KeepersHear L.Layout.meaning K.Keeper.keeping }
{}
