//! The laws of pages and ranges that the crates above rest on. Each is the contract of a function that does nothing.
ghost use Rattle.tree_geom.specs.Laws.{PagesHaveBytes, HeightsHold, SpanOfNone, SpanOfSome, SpansHold, WithinSpan, PageWithin, RangesHaveBytes};
ghost use Rattle.tree_geom.specs.Laws.{HeightsHalve, PagesAlign, LowHalvesAlign, HighHalvesAlign, RangesNest, MeetsIsTrue, MeetsIsFalse, MeetsOrNot};
ghost use Rattle.tree_geom.specs.Laws.{TouchesTellCover};

/// What the height and the span of a size are, and which ranges are within the span.
pub fn spans_hold()
    ensures heights { HeightsHold }
    ensures none { SpanOfNone }
    ensures some { SpanOfSome }
    ensures hold { SpansHold }
    ensures within { WithinSpan }
    ensures page { PageWithin }
{}

/// A page and a range of any height has a byte, and how the ranges of one height lie among those of another.
pub fn ranges_align()
    ensures page { PagesHaveBytes }
    ensures bytes { RangesHaveBytes }
    ensures halve { HeightsHalve }
    ensures pages { PagesAlign }
    ensures low { LowHalvesAlign }
    ensures high { HighHalvesAlign }
    ensures nest { RangesNest }
{}

/// Touched pages meet a range or they don't, as the test tells.
pub fn meets_is_decided()
    ensures met { MeetsIsTrue }
    ensures apart { MeetsIsFalse }
    ensures cases { MeetsOrNot }
{}

/// Of the pages that an update touches, only the first and the last can have valid bytes that it leaves to older leaves, and
/// its touch tells of both whether they have.
pub fn touches_tell_cover()
    ensures { TouchesTellCover }
{}
