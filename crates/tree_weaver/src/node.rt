// The nodes of a numbered update.
ghost use Rattle.std.specs.Prelude.{◌≡◌, ◌+◌, ◌-◌, ◌*◌, ◌/◌, ◌%◌, ◌^◌, ◌<◌, ◌≤◌, ◌↔◌, ◌==◌, length, min, true, IsTrue};
ghost use Rattle.std.specs.List.{filter_map};
ghost use Rattle.tree_geom.specs.Geometry.{tree_range, height_of, covers};
ghost use Rattle.range_log.specs.Rows.{first_piece, second_piece, piece_count, leaf_start, leaf_from, leaf_len, pages_in, valid_in, whole_leaf};
ghost use Rattle.border_hints.specs.Numbered.{own_touch};
ghost use Rattle.tree_weaver.specs.Planned.{own_extent, own_link, own_back, own_depth, own_folded, own_folds, own_place, own_leaf, own_inner, AreOwnBorders};

use border_hints::{Borders, Ticket};
use tree_geom::laws::touches_tell_cover;
use tree_geom::{Node, PageSize, Piece};

/// The size of the pages of the ticket's blob.
pub(crate) fn page_size(ticket: &Ticket) -> PageSize
    ensures { result ≡ ticket.now.snapshot.page_size }
{
    ticket.hints().snapshot.page_size()
}

// The version that a node of a height links to for range number `n` of the height below, one of its halves: the update's own where it
// touches the half, or else the newest lower one. A half that it doesn't touch stands beside the first or the last range that it touches.
fn link(ticket: &Ticket, borders: &Borders, level: u32, n: u64) -> u64
    requires borders { AreOwnBorders ticket.now borders.now }
    requires above { 1 ≤ level }
    requires level { level ≤ height_of ticket.now.snapshot.page_size ticket.now.size }
    requires low { height_of ticket.now.snapshot.page_size ticket.now.size ≤ 38 }
    requires first { (own_touch ticket.now).first / 2 ^ level ≤ n / 2 }
    requires last { n / 2 ≤ (own_touch ticket.now).last / 2 ^ level }
    ensures { result ≡ own_link ticket.now (tree_range ticket.now.snapshot.page_size (level - 1) n) }
{
    range_log::laws::newest_is_greatest();
    range_log::laws::logs_are_grown();
    ticket.stands();
    let touch = ticket.touch();
    let under = level - 1;
    if n < touch.first >> under {
        return borders.below(under);
    }
    if touch.last >> under < n {
        return borders.above(under);
    }
    ticket.version()
}

/// The node of the update for range number `q` of a height above the pages', which is one of its row.
pub(crate) fn inner(ticket: &Ticket, borders: &Borders, level: u32, q: u64) -> Node
    requires borders { AreOwnBorders ticket.now borders.now }
    requires above { 1 ≤ level }
    requires level { level ≤ height_of ticket.now.snapshot.page_size ticket.now.size }
    requires low { height_of ticket.now.snapshot.page_size ticket.now.size ≤ 38 }
    requires first { (own_touch ticket.now).first / 2 ^ level ≤ q }
    requires last { q ≤ (own_touch ticket.now).last / 2 ^ level }
    ensures { result ≡ own_inner ticket.now (tree_range ticket.now.snapshot.page_size level q) }
{
    tree_geom::laws::ranges_align();
    ticket.stands();
    Node::Inner {
        left: link(ticket, borders, level, 2 * q),
        right: link(ticket, borders, level, 2 * q + 1),
    }
}

// The byte of the blob at which the page begins, which the update touches.
fn page_begin(ticket: &Ticket, page: u64) -> u64
    requires first { (own_touch ticket.now).first ≤ page }
    requires last { page ≤ (own_touch ticket.now).last }
    ensures is { result ≡ page * ticket.now.snapshot.page_size }
    ensures before_end { result < ticket.now.at + ticket.now.len }
    ensures ends_behind { ticket.now.at < result + ticket.now.snapshot.page_size }
{
    ticket.stands();
    page * page_size(ticket).bytes()
}

/// The bytes of the update that lie in one page: at which byte of the page and of the update's buffer they begin, and how
/// many they are.
#[derive(Clone, Copy)]
struct OwnPart {
    start: u64,
    from: u64,
    len: u64,
}

// The bytes of the update that lie in the page, which it touches.
fn part(ticket: &Ticket, page: u64) -> OwnPart
    requires first { (own_touch ticket.now).first ≤ page }
    requires last { page ≤ (own_touch ticket.now).last }
    ensures start { result.start ≡ leaf_start ticket.now.snapshot.page_size (own_extent ticket.now) page }
    ensures from { result.from ≡ leaf_from ticket.now.snapshot.page_size (own_extent ticket.now) page }
    ensures len { result.len ≡ leaf_len ticket.now.snapshot.page_size (own_extent ticket.now) page }
    ensures some { 1 ≤ result.len }
    ensures in_page { result.start + result.len ≤ ticket.now.snapshot.page_size }
    ensures in_buffer { result.from + result.len ≤ ticket.now.len }
{
    ticket.stands();
    let begin = page_begin(ticket, page);
    let end = (ticket.at() + ticket.len()).min(begin + page_size(ticket).bytes());
    let first = ticket.at().max(begin);
    OwnPart {
        start: first - begin,
        from: first - ticket.at(),
        len: end - first,
    }
}

// The one or two pieces of `len` bytes of an update's buffer from byte `from` on, and how many they are.
fn pieces(p: PageSize, from: u64, len: u64) -> (u32, Piece, Piece)
    requires some { 1 ≤ len }
    requires few { len ≤ p }
    requires stored { from + len ≤ 4294967295 * p }
    ensures count { result.0 ≡ piece_count p from len }
    ensures first { result.1 ≡ first_piece p from len }
    ensures second { result.2 ≡ second_piece p from len }
{
    let size = p.bytes();
    let page = (from / size) as u32;
    let begin = from % size;
    let room = size - begin;
    let first = Piece {
        page,
        from: begin as u32,
        len: room.min(len) as u32,
    };
    if room < len {
        let second = Piece {
            page: page + 1,
            from: 0,
            len: (len - room) as u32,
        };
        (2, first, second)
    } else {
        let none = Piece {
            page: 0,
            from: 0,
            len: 0,
        };
        (1, first, none)
    }
}

// Whether the update covers the page, which it touches.
fn covers_page(ticket: &Ticket, page: u64) -> bool
    requires first { (own_touch ticket.now).first ≤ page }
    requires last { page ≤ (own_touch ticket.now).last }
    ensures { let t = ticket.now in result ≡ covers t.snapshot.page_size t.at t.len t.size page }
{
    touches_tell_cover();
    ticket.stands();
    !ticket.touch().leaves_open(page)
}

// The newest lower version with a leaf of the page, and how deep the update's own leaf of it lies: how many backs lead on
// from that. Both are 0 where the update covers the page. The update touches the page.
fn back(ticket: &Ticket, borders: &Borders, page: u64) -> (u64, u32)
    requires borders { AreOwnBorders ticket.now borders.now }
    requires first { (own_touch ticket.now).first ≤ page }
    requires last { page ≤ (own_touch ticket.now).last }
    ensures back { result.0 ≡ own_back ticket.now page }
    ensures depth { result.1 ≡ own_depth ticket.now page }
{
    range_log::laws::logs_are_grown();
    tree_geom::laws::meets_is_decided();
    touches_tell_cover();
    ticket.stands();
    if covers_page(ticket, page) {
        return (0, 0);
    }
    (borders.leaf(page), borders.depth(page))
}

// Whether the update stores the page anew, which it touches.
fn folded(ticket: &Ticket, borders: &Borders, page: u64) -> bool
    requires borders { AreOwnBorders ticket.now borders.now }
    requires first { (own_touch ticket.now).first ≤ page }
    requires last { page ≤ (own_touch ticket.now).last }
    ensures { result ≡ own_folded ticket.now page }
{
    let (_, depth) = back(ticket, borders, page);
    !covers_page(ticket, page) && depth == 0
}

/// The pages of the blob that the update stores anew, in their order.
pub(crate) fn folds(ticket: &Ticket, borders: &Borders) -> [Option<u64>; 2]
    requires borders { AreOwnBorders ticket.now borders.now }
    ensures { filter_map (λ o. o) result ≡ own_folds ticket.now }
{
    ticket.stands();
    let touch = ticket.touch();
    let mut pages = [None, None];
    if folded(ticket, borders, touch.first) {
        pages[0] = Some(touch.first);
    }
    if touch.first != touch.last && folded(ticket, borders, touch.last) {
        pages[1] = Some(touch.last);
    }
    pages
}

// The place of the page among those that the update stores anew, of which it is one.
fn place(ticket: &Ticket, borders: &Borders, page: u64) -> u32
    requires borders { AreOwnBorders ticket.now borders.now }
    requires first { (own_touch ticket.now).first ≤ page }
    requires last { page ≤ (own_touch ticket.now).last }
    requires anew { own_folded ticket.now page ≡ true }
    ensures place { result ≡ own_place ticket.now page }
    ensures few { result ≤ 1 }
{
    touches_tell_cover();
    ticket.stands();
    let first = ticket.touch().first;
    if page == first {
        return 0;
    }
    if folded(ticket, borders, first) { 1 } else { 0 }
}

// The leaf of a page that the update stores anew, at that place among such pages: all valid bytes of the page, in the stored
// page that comes after the update's own at that place.
#[tactic(auto, using(crate::proofs::FoldedPages::pages_counted))]
fn whole(ticket: &Ticket, place: u32, page: u64) -> Node
    requires few { length ticket.now.pages.pages ≤ 4294967293 }
    requires place { place ≤ 1 }
    requires first { (own_touch ticket.now).first ≤ page }
    requires last { page ≤ (own_touch ticket.now).last }
    ensures { result ≡ whole_leaf (pages_in ticket.now.snapshot.page_size ticket.now.len + place) (valid_in ticket.now.snapshot.page_size ticket.now.size page) }
{
    ticket.stands();
    let begin = page_begin(ticket, page);
    let end = ticket.size().min(begin + page_size(ticket).bytes());
    let first = Piece {
        page: ticket.pages().count() + place,
        from: 0,
        len: (end - begin) as u32,
    };
    let second = Piece {
        page: 0,
        from: 0,
        len: 0,
    };
    Node::Leaf {
        start: 0,
        count: 1,
        first,
        second,
        back: 0,
        depth: 0,
    }
}

/// The leaf of the update for a page that it touches.
pub(crate) fn leaf(ticket: &Ticket, borders: &Borders, page: u64) -> Node
    requires borders { AreOwnBorders ticket.now borders.now }
    requires first { (own_touch ticket.now).first ≤ page }
    requires last { page ≤ (own_touch ticket.now).last }
    requires few { length ticket.now.pages.pages ≤ 4294967293 }
    ensures { result ≡ own_leaf ticket.now page }
{
    if folded(ticket, borders, page) {
        return whole(ticket, place(ticket, borders, page), page);
    }
    ticket.stands();
    let _pages = ticket.pages().count();
    let part = part(ticket, page);
    let (count, first, second) = pieces(page_size(ticket), part.from, part.len);
    let (back, depth) = back(ticket, borders, page);
    Node::Leaf {
        start: part.start as u32,
        count,
        first,
        second,
        back,
        depth,
    }
}
