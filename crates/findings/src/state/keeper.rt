// Findings hear of each word that is put, and keep its entry.
ghost use Rattle.std.specs.Prelude.{◌≡◌};
ghost use Rattle.compose.specs.Acts.{part_of};
ghost use Rattle.record.specs.Lists.{lists_of};
ghost use Rattle.findings.specs.Keeping.{keeps, finding};

use super::Findings;
use compose::Role;
use record::Table;
use setting::Keeper;

// Adds the entry of a word, if it has one, there is room and the page is one.
fn keep(table: &mut Table, role: Role, page: u16)
    ensures { lists_of table.new ≡ keeps (lists_of table.old) (part_of role) page }
{
    let _ = match role {
        Role::Label(name, number) => table.put_label(name, number, page),
        Role::Heading(number) => table.put_contents(number, page),
        _ => Ok(()),
    };
}

// A keeper that never refuses: what has no room is not kept, and the number of words stops at the largest.
impl Keeper for Findings {
    ghost keeping = { finding };

    fn hear(&mut self, _word: &[u8], role: Role, page: u16) {
        keep(&mut self.table, role, page);
        self.words = self.words.saturating_add(1);
    }
}
