// What the second pass is lent: the topics' names, eight rows of them, and the message ids with their numbers.
ghost use Rattle.std.specs.Prelude.{◌≡◌, length};
ghost use Rattle.rpc.specs.Reading.{names_bytes};

use message_ids::Table;

#[derive(Clone, Copy)]
pub struct Tables<'n, 't> {
    pub names: &'n [u8],
    pub table: Table<'t>,
    ghost eight: { length names.now ≡ names_bytes },
}
