// What is left of a file that is read from its front.
ghost use Rattle.std.specs.Prelude.{◌≤◌, length};

// The bytes that are still to be read, which end a file of that many bytes.
#[derive(Clone, Copy)]
pub(crate) struct Unread<'a> {
    pub end: usize,
    pub bytes: &'a [u8],
    ghost within: { length bytes.now ≤ end },
}
