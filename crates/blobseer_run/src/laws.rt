//! Laws of transcripts, and of the program's own doors.

ghost use Rattle.blobseer_run.specs.Known.{ScriptsAreTold};
ghost use Rattle.blobseer_run.specs.Legal.{LegalAlone, HistoriesAlone, AlwaysSays};
ghost use Rattle.blobseer_run.specs.Script.{IsCalm};

use blob_model::laws::old_versions_stay;
use page_store::{Door, PlainDoor};
use request_form::laws::transcripts_hold;

/// The history of a transcript alone is legal, and one of a desk where there are fewer than 2^37 items. Each list of items has such a
/// transcript, in which no reply to a request tells that memory was wanting, and the outside failed for no request.
pub fn transcripts_are_legal()
    ensures legal { LegalAlone }
    ensures histories { HistoriesAlone }
    ensures always { AlwaysSays }
{
    old_versions_stay();
    transcripts_hold();
}

/// The doors that lie in the process never fail, so that over them no reply of a run is a page fault.
pub fn plain_doors_are_calm()
    ensures { IsCalm ⟦<PlainDoor as Door>⟧.faults }
{}

/// Over an input and an output that tell themselves, as the program's own do, the command `run` answered all the bytes that its reads of
/// the input gave, and what it said of them is all that the output took: neither is left open.
pub fn scripts_are_told<D: Door>()
    ensures { ScriptsAreTold (IsCalm D.faults) }
{}
