// The entries of one kind with a paper on them.
ghost use Rattle.std.specs.Prelude.{◌≡◌, length};

/// The entries of one kind, and a paper on them: a fill for each, in thousandths of a MW.
#[derive(Drop)]
pub(crate) struct Paper<'a, E> {
    pub entries: &'a [E],
    pub fills: &'a [u32],
    ghost paired: { length fills.now ≡ length entries.now },
}
