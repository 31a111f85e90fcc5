// The header of a rule or a query: its place, its numbers, and the bytes after it. It stands in a file of its own, since
// the definitions that its methods cite in rules.rt name it.
ghost use Rattle.std.specs.Prelude.{◌+◌, ◌^◌, ◌<◌, length};

#[derive(Drop)]
pub(crate) struct Header<'a> {
    pub(crate) place: usize,
    pub(crate) variables: u8,
    pub(crate) goals: u8,
    // how many bytes the terms are to have
    pub(crate) size: u16,
    pub(crate) rest: &'a [u8],
    ghost counted: { place + 5 + length rest.now < 2 ^ 64 },
}
