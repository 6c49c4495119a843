// One place of the strip: a value, and the channel that it is on.
#[derive(Clone, Copy, PartialEq, Eq, Debug)]
pub struct Entry {
    pub channel: u8,
    pub value: i32,
}
