// The interface of a keeper: it hears of each word that was set, and never refuses.
ghost use Rattle.compose.specs.Acts.{part_of};
ghost use Rattle.setting.specs.Keeping.{Keeping, Hears};

use compose::Role;

pub trait Keeper {
    // What it keeps.
    ghost keeping: { Keeping Self };

    // A word was set on a page.
    fn hear(&mut self, word: &[u8], role: Role, page: u16)
        ensures { Hears keeping self.old word.now (part_of role) page self.new };
}
