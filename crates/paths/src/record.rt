// A lent plan record that is a tree. That it has all its numbers stands here too, since a proof knows the length of an array
// that is lent by itself, and not of one in a field.
ghost use Rattle.std.specs.Prelude.{◌≡◌, true, length};
ghost use Rattle.tree.specs.Record.{legal};

#[derive(Clone, Copy)]
pub struct TreeRecord<'a> {
    pub rows: &'a [u16; 1408],
    ghost is_legal: { legal rows.now ≡ true },
    ghost has_all: { length rows.now ≡ 1408 },
}
