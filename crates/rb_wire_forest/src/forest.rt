// A forest in its payload.

ghost use Rattle.std.specs.Prelude.{◌≡◌, true};
ghost use Rattle.rb_meaning_bytes.specs.formats.Reading.{read_all};
ghost use Rattle.rb_meaning_bytes.specs.formats.Forests.{forest_message};
ghost use Rattle.rb_wire_forest.specs.Passed.{is_read};

/// A forest in its payload, seen as its root.
#[derive(Clone, Copy)]
pub struct Forest<'a> {
    pub(crate) payload: &'a [u8],
    ghost whole: { is_read (read_all forest_message payload.now) ≡ true },
}
