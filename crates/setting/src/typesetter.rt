// The compositor.
ghost use Rattle.setting.specs.Typesetting.{typesetting};

use crate::keeper::Keeper;
use compose::{Compositor, Role, Source};
use faults::{Cause, Fault};
use layout::Layout;

// `pass` is what a fault tells of the pass.
#[derive(Drop)]
pub struct Typesetter<'l, 'k, L, K> {
    pub layout: &'l mut L,
    pub keeper: &'k mut K,
    pub pass: u8,
}

impl<'l, 'k, L: Layout, K: Keeper> Compositor for Typesetter<'l, 'k, L, K> {
    ghost playing = { typesetting L.Layout.meaning K.Keeper.keeping };

    fn word(&mut self, word: &[u8], role: Role, source: Source) -> Result<(), Fault> {
        let pass = self.pass;
        let mark = self.layout.set(word).map_err(|refusal| Fault {
            name: source.name,
            pass,
            ..Fault::in_line(Cause::from(refusal), source.line)
        })?;
        let page = self.layout.page(mark);
        self.keeper.hear(word, role, page.number());
        Ok(())
    }

    fn end_paragraph(&mut self) {
        self.layout.end_paragraph();
    }

    fn end_page(&mut self) {
        self.layout.end_page();
    }
}
