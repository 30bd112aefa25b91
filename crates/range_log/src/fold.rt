// How often a page that is changed in small parts is stored anew.
ghost use Rattle.std.specs.Prelude.{◌≡◌, ◌+◌, ◌%◌, ◌<◌, ◌≤◌};
ghost use Rattle.range_log.specs.Depths.{fold_number};
ghost use Rattle.range_log.specs.Laws.{FoldNumberIs};

/// The fold number: how many leaves of a page that their updates don't cover may come in a row until the last of them stores the
/// whole page anew. With 0 none ever does.
pub const FOLD: u32 = 16;

/// The fold number is 0 or 16, and nothing else is known of it. For proofs: it does nothing.
pub fn fold_stands()
    ensures { FoldNumberIs }
{}

// The fold number, of which no more is known than above.
fn fold() -> u32
    ensures { result ≡ fold_number }
{
    FOLD
}

/// The depth of a leaf whose update doesn't cover its page, where that of the newest older leaf is `depth`: one more, and 0 again
/// at each leaf that stores the page anew.
pub fn deeper(depth: u32) -> u32
    requires { depth < 4294967295 }
    ensures is { result ≡ (depth + 1) % fold_number }
    ensures few { result ≤ depth + 1 }
{
    let fold = fold();
    if fold == 0 {
        depth + 1
    } else {
        (depth + 1) % fold
    }
}
