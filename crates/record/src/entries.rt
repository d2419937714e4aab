// A list of entries, at most 128, for which room is reserved when it is made.
ghost use Rattle.std.specs.Prelude.{◌≤◌, vec_len, vec_capacity};

mod fills;

#[derive(Drop)]
pub struct Entries<E> {
    list: Vec<E>,
    ghost roomy: { 128 ≤ vec_capacity list },
    ghost few: { vec_len list ≤ 128 },
}
