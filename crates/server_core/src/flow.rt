/// How a stream ended.
#[derive(Clone, Copy, Debug, PartialEq, Eq)]
pub enum End {
    /// A request to end was answered.
    Quit,
    /// Nothing is left, and all that came was answered.
    InputEnd,
    /// Nothing is left, inside an item. The items before it were answered.
    Cut,
    /// A read failed. The whole items before it were answered.
    ReadFault,
    /// A write failed.
    WriteFault,
    /// As many bytes as the limit says were taken. The whole items in them were answered.
    InputTooLong,
    /// No memory was found.
    NoMemory,
}

/// Whether the stream goes on after some items.
#[derive(Clone, Copy, Debug, PartialEq, Eq)]
pub enum Flow {
    /// It goes on.
    Goes,
    /// The last item was a request to end, and is answered.
    Quits,
    /// A write failed.
    WriteFault,
    /// No memory was found.
    NoMemory,
}
