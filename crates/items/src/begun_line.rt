ghost use Rattle.std.specs.Prelude.{◌≡◌, ◌<◌, ◌≤◌, ◌++◌, [], length, IfOk, OnOk, OnErr};
ghost use Rattle.std.specs.Option.{IfSome};
ghost use Rattle.items.specs.Lines.{item_of_text};
ghost use Rattle.items.specs.Text.{IsWithout, IsText};
ghost use Rattle.items.specs.BegunLine.{begun_text, IsBegun, Pushes, PushesAll};
ghost use Rattle.items.specs.BegunLine as spec;
ghost use Rattle.items.specs.declared.begun_line.Begun.TheVariants.{Bad};

use crate::line_body::Body;
use faults::NoMemory;
use std::alloc::Global;

/// What has come of a line, but for a CR at its end.
#[derive(Drop)]
pub enum Begun<B> {
    /// A text that may still say something.
    Text(B),
    /// A line that begins with `#`.
    Comment,
    /// A line that is certainly bad, or has too many bytes.
    Bad,
}

/// What more bytes have made of a text.
#[derive(Clone, Copy, PartialEq, Eq)]
pub enum Added {
    /// So many of them came to it.
    Some(usize),
    /// With all of them it is a comment.
    Comment,
    /// With all of them it is certainly bad.
    Bad,
}

/// A line of which nothing has come.
pub fn nothing<B: Body>(alloc: Global) -> Begun<B>
    ensures begun { IsBegun B.lining.limit B.text result 0 }
    ensures text { begun_text B.text result ≡ [] }
{
    Begun::Text(B::new(alloc))
}

// More bytes of a text of `len` bytes, off the front of a run.
fn add<B: Body>(alloc: Global, body: &mut B, len: &mut usize, run: &[u8]) -> Result<Added, NoMemory>
    requires text { IsText (B.text body.old) }
    requires counts { length (B.text body.old) ≡ len.old }
    requires short { len.old ≤ B.lining.limit }
    requires some { 0 < length run.now }
    requires no_feed { IsWithout 10 run.now }
    ensures { IfOk result (spec.Added B.lining (B.text body.old) run.now (B.text body.new) len.new) }
{
    if *len == 0 && run[0] == b'#' {
        return Ok(Added::Comment);
    }
    let room = B::limit() - *len;
    if room == 0 {
        return Ok(Added::Bad);
    }
    let front = &run[..room.min(run.len())];
    match body.take(alloc, front)? {
        None => Ok(Added::Bad),
        Some(count) => {
            *len += count;
            Ok(Added::Some(count))
        }
    }
}

// Takes bytes of a line off the front of a run, at least one, and says how many. Where memory is refused, the line isn't kept.
fn push<B: Body>(
    alloc: Global,
    begun: &mut Begun<B>,
    len: &mut usize,
    run: &[u8],
) -> Result<usize, NoMemory>
    requires begun { IsBegun B.lining.limit B.text begun.old len.old }
    requires some { 0 < length run.now }
    requires no_feed { IsWithout 10 run.now }
    ensures ok { IfOk result (Pushes B.lining (begun_text B.text begun.old) run.now (begun_text B.text begun.new)) }
    ensures err { OnErr result (begun.new ≡ Bad) }
    ensures begun { IsBegun B.lining.limit B.text begun.new len.new }
{
    match begun {
        Begun::Text(body) => match add(alloc, body, len, run) {
            Ok(Added::Some(count)) => Ok(count),
            Ok(Added::Comment) => {
                *begun = Begun::Comment;
                Ok(run.len())
            }
            Ok(Added::Bad) => {
                *begun = Begun::Bad;
                Ok(run.len())
            }
            Err(error) => {
                *begun = Begun::Bad;
                Err(error)
            }
        },
        Begun::Comment => Ok(run.len()),
        Begun::Bad => Ok(run.len()),
    }
}

/// Takes all bytes of a run into a line of `len` bytes. Where memory is refused, the line isn't kept.
pub fn push_all<B: Body>(
    alloc: Global,
    begun: &mut Begun<B>,
    len: &mut usize,
    run: &[u8],
) -> Result<(), NoMemory>
    requires begun { IsBegun B.lining.limit B.text begun.old len.old }
    requires no_feed { IsWithout 10 run.now }
    ensures ok { OnOk result (PushesAll B.lining (begun_text B.text begun.old) run.now (begun_text B.text begun.new)) }
    ensures err { OnErr result (begun.new ≡ Bad) }
    ensures begun { IsBegun B.lining.limit B.text begun.new len.new }
{
    let mut taken = 0;
    'run: while taken < run.len() {
        taken += push(alloc, begun, len, &run[taken..])?;
    }
    Ok(())
}

/// What a line of `len` bytes says, now that it has ended. An empty line and a comment say nothing.
pub fn item<B: Body>(
    alloc: Global,
    begun: Begun<B>,
    len: usize,
) -> Result<Option<B::Item>, NoMemory>
    requires { IsBegun B.lining.limit B.text begun len }
    ensures says { IfOk result (λ item. item_of_text B.lining (begun_text B.text begun) ≡ item) }
    ensures well { IfOk result (λ item. IfSome item B.IsWell) }
{
    match begun {
        Begun::Text(body) => {
            if len == 0 {
                return Ok(None);
            }
            Ok(Some(body.into_item(alloc)?))
        }
        Begun::Comment => Ok(None),
        Begun::Bad => Ok(Some(B::bad())),
    }
}
