// Where a program chooses its host when it runs: an enum and a match in each call, since nothing hands out a `dyn`.
use page::slots::SlotHost;

pub mod calls;

// The strip host is a type argument, as `AnyHost<StripHost, HeapHost>`: an enum that names a lifetime may not hold a struct
// that has ghost fields. A program without a strip, or without a host of its own, gives any other host there.
#[derive(Drop)]
pub enum AnyHost<S, H> {
    Slot(SlotHost),
    Strip(S),
    Own(H),
}
