// A mark, and a word that has one.
ghost use Rattle.std.specs.Prelude.{◌≡◌, ◌+◌, ◌≤◌, length, Ok};
ghost use Rattle.names.specs.Name.{naming};

// `{l:NAME}`, `{p:NAME}` and `{n:NAME}`.
#[derive(Clone, Copy, PartialEq, Eq, Debug)]
pub enum Mark {
    Label,
    Page,
    Number,
}

// A word with a mark: what stands before the mark, the mark's name, and what stands after it.
#[derive(Clone, Copy)]
pub struct Marked<'a> {
    pub mark: Mark,
    pub prefix: &'a [u8],
    pub name: &'a [u8],
    pub suffix: &'a [u8],
    ghost short: { length prefix.now + length suffix.now ≤ 60 },
    ghost right: { naming name.now ≡ Ok tt },
}
