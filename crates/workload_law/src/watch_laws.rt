//! What holds of every legal history of a watch. A law is the contract of a function that does nothing.

ghost use Rattle.workload_law.specs.WatchLaws.{ComeTogether, WatchesAreDone, BlobsAreThere, NothingElseHinders, VersionsAreSized, PiecesAreTold};

/// Every watch whose writer came to its end has as many versions as operations, all published, of 16 bytes each.
pub fn watches_are_done()
    ensures { WatchesAreDone }
{}

/// What is known of a watch's history once all passes came back: it is the making of the blob and then the writer's events; the blob
/// is there at every moment after it was made; and nothing but the outside hinders the writer. A page that was lost then begins within
/// the bytes that the writer appends.
pub fn watches_close()
    ensures together { ComeTogether }
    ensures there { BlobsAreThere }
    ensures writer { NothingElseHinders }
{
    blob_model::laws::old_versions_stay();
}

/// What readers meet at every moment of a watch, also of one that ended early: each published version has 16 bytes more than the one
/// before it, and who reads the bytes of an update reads these bytes, once the version is published; until then it is told that it isn't.
pub fn pieces_are_told()
    ensures sizes { VersionsAreSized }
    ensures told { PiecesAreTold }
{
    blob_model::laws::published_are_numbered();
}
