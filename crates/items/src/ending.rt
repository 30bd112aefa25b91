/// What the end of a stream leaves over.
#[derive(Drop)]
pub enum Ending<A> {
    /// Nothing that has a reply.
    Clean,
    /// One more item, which the end makes whole.
    Last(A),
    /// A part of an item.
    Cut,
}
