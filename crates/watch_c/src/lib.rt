// The C face: the library's twenty-nine functions under names of their own, over numbers and slices, and the face's version. Nothing else is here.
// The archive's exports, in watch_archive_c, hand on to them.
// An answer that one function alone gives is laid out there: a `From` of one use is no plainer.
#![tactic(auto)]

ghost use Rattle.std.specs.Prelude.{◌≡◌, ◌≤◌, length};
ghost use Rattle.list.specs.List.{list_refusal};
ghost use Rattle.list_flow.specs.Opening.{open_flow};
ghost use Rattle.list_feed.specs.Plain.{plain_feed};
ghost use Rattle.table.specs.Table.{table, table_refusal};
ghost use Rattle.table_feed.specs.Split.{split_feed};
ghost use Rattle.matrix.specs.Matrix.{Fills, matrix_feed};
ghost use Rattle.index.specs.Stand.{stand_feed, stood_at};
ghost use Rattle.index_fill.specs.Filled.{FillsIndex};
ghost use Rattle.table_build.specs.Build.{Builds};
ghost use Rattle.index_prepare.specs.Prepare.{Prepares};
ghost use Rattle.machine.specs.Machine.{machine_refusal};
ghost use Rattle.machine.specs.Extended.{extended_open, extended_feed};
ghost use Rattle.segment.specs.Resend.{taking, part_due};
ghost use Rattle.watch_c.specs.Resent.{FaceTakes, FaceFinds};
ghost use Rattle.watch_c.specs.Face.{version, Faces, FaceAnswers, FaceOpens, stood_fed, face_built, face_made, face_compiled, face_joined, face_folded};
ghost use Rattle.machine_certificate.specs.Certificate.{certificate_refusal};
ghost use Rattle.text_compile.specs.Compile.{Compiles};
ghost use Rattle.list_join.specs.Join.{Joins};
ghost use Rattle.list_fold.specs.Fold.{FoldAnswers};
ghost use Rattle.list_why.specs.Run.{of_signature, of_state};
ghost use Rattle.list_why.specs.Reason.{Explains, Finds};
ghost use Rattle.watch_c.specs.Why.{face_found};
ghost use Rattle.list_renew.specs.Renewal.{Renews, offset_said};
ghost use Rattle.segment_feed.specs.Ways.{plain_segment, split_segment};
ghost use Rattle.segment_feed.specs.Post.{Hears, sent, kept};
ghost use Rattle.segment_index.specs.Standing.{stand_segment, stood_by};
ghost use Rattle.segment_machine.specs.Ways.{machine_segment};
ghost use Rattle.watch_c.specs.Segments.{face_heard, face_heard_at};

use feed::{Fed, Opened};
use index_feed::Stood;
use segment_feed::Heard;

// The version of the face, by which a caller compares its header with the archive.
pub const VERSION: u32 = 20;

// What a feed answers, as C lays it out.
#[repr(C)]
#[derive(Clone, Copy)]
pub struct WatchFed {
    pub bytes: u64,
    pub pairs: u64,
    pub refusal: u32,
    pub all: bool,
}

// What a feed by an index answers, as C lays it out: the split where the flow then stands beside the rest.
#[repr(C)]
#[derive(Clone, Copy)]
pub struct WatchStood {
    pub bytes: u64,
    pub pairs: u64,
    pub refusal: u32,
    pub split: u32,
    pub all: bool,
}

// What opening a flow answers, as C lays it out.
#[repr(C)]
#[derive(Clone, Copy)]
pub struct WatchOpened {
    pub pairs: u64,
    pub refusal: u32,
}

// What building a table answers, as C lays it out: the bytes used of each list.
#[repr(C)]
#[derive(Clone, Copy)]
pub struct WatchBuilt {
    pub classes: u64,
    pub parts: u64,
    pub rows: u64,
    pub splits: u64,
    pub refusal: u32,
}

// What preparing a list answers, as C lays it out: the bytes used of each list.
#[repr(C)]
#[derive(Clone, Copy)]
pub struct WatchMade {
    pub splits: u64,
    pub index: u64,
    pub refusal: u32,
}

// What compiling a text answers, as C lays it out: the place counts for 19 alone, the length without a refusal.
#[repr(C)]
#[derive(Clone, Copy)]
pub struct WatchCompiled {
    pub place: u64,
    pub length: u64,
    pub refusal: u32,
}

// What joining and folding answer, as C lays it out: the length of the list that stands in front of the lent one.
#[repr(C)]
#[derive(Clone, Copy)]
pub struct WatchJoined {
    pub length: u64,
    pub refusal: u32,
}

impl From<Fed> for WatchFed {
    ghost from_gives = { λ f w. Faces f w };

    fn from(fed: Fed) -> WatchFed {
        WatchFed {
            bytes: fed.bytes as u64,
            pairs: fed.pairs as u64,
            refusal: fed.refusal,
            all: fed.all,
        }
    }
}

impl From<Opened> for WatchOpened {
    ghost from_gives = { λ o w. (w.pairs ≡ o.pairs) × (w.refusal ≡ o.refusal) };

    fn from(opened: Opened) -> WatchOpened {
        WatchOpened {
            pairs: opened.pairs as u64,
            refusal: opened.refusal,
        }
    }
}

impl From<Heard> for WatchHeard {
    ghost from_gives = { λ h w. face_heard w ≡ h };

    fn from(heard: Heard) -> WatchHeard {
        WatchHeard {
            bytes: heard.bytes as u64,
            pairs: heard.pairs as u64,
            refusal: heard.refusal,
            start: heard.start,
            length: heard.length,
            all: heard.all,
        }
    }
}

// The answer of a feed by an index in C's layout. No `From`, which would take any split: C's has 32 bits.
fn face_stood(s: Stood) -> WatchStood
    requires { s.split ≤ 4294967295 }
    ensures { Faces s.fed (stood_fed result) × (result.split ≡ s.split) }
{
    let f = s.fed;
    WatchStood {
        bytes: f.bytes as u64,
        pairs: f.pairs as u64,
        refusal: f.refusal,
        split: s.split as u32,
        all: f.all,
    }
}

// The version of the face that the archive has.
#[unsafe(no_mangle)]
pub extern "C" fn watch_version() -> u32
    ensures { result ≡ version }
{
    VERSION
}

// The list check: 0, or the number of the refusal.
#[unsafe(no_mangle)]
pub extern "C" fn watch_check_list(list: &[u8]) -> u32
    ensures { result ≡ list_refusal list.now }
{
    list::check_list(list)
}

// Opens a flow on a list, and tells the pairs of offset 0; a refusal leaves the record and the words as they are.
#[unsafe(no_mangle)]
pub extern "C" fn watch_open(list: &[u8], flow: &mut [u8], pairs: &mut [u32]) -> WatchOpened
    ensures { FaceOpens (open_flow list.now flow.old pairs.old) result pairs.new flow.new }
{
    let opened = list_flow::open_flow(list, flow, pairs);
    WatchOpened::from(opened)
}

// The plain feed of a piece that begins at `start`.
#[unsafe(no_mangle)]
pub extern "C" fn watch_feed(
    list: &[u8],
    flow: &mut [u8],
    start: u64,
    piece: &[u8],
    pairs: &mut [u32],
) -> WatchFed
    ensures { FaceAnswers (plain_feed list.now flow.old start piece.now pairs.old) result pairs.new flow.new }
{
    let f = list_feed::feed(list, flow, start, piece, pairs);
    WatchFed::from(f)
}

// The table check: 0, or the number of the refusal.
#[unsafe(no_mangle)]
pub extern "C" fn watch_check_table(
    list: &[u8],
    bound: u64,
    classes: &[u8],
    parts: &[u8],
    rows: &[u8],
    splits: &[u8],
) -> u32
    ensures { result ≡ table_refusal list.now bound
        (table classes.now parts.now rows.now splits.now) }
{
    table::check_table(list, bound, classes, parts, rows, splits)
}

// The split feed of a piece that begins at `start`.
#[unsafe(no_mangle)]
pub extern "C" fn watch_split_feed(
    list: &[u8],
    bound: u64,
    classes: &[u8],
    parts: &[u8],
    rows: &[u8],
    splits: &[u8],
    flow: &mut [u8],
    start: u64,
    piece: &[u8],
    pairs: &mut [u32],
) -> WatchFed
    ensures { FaceAnswers (split_feed list.now bound
        (table classes.now parts.now rows.now splits.now)
        flow.old start piece.now pairs.old) result pairs.new flow.new }
{
    let f = table_feed::feed(
        list, bound, classes, parts, rows, splits, flow, start, piece, pairs,
    );
    WatchFed::from(f)
}

// Writes the matrix of a list: 0, or the number of the refusal, which leaves the matrix as it is.
#[unsafe(no_mangle)]
pub extern "C" fn watch_fill_matrix(list: &[u8], matrix: &mut [u8]) -> u32
    ensures { Fills list.now matrix.old result matrix.new }
{
    matrix::fill(list, matrix)
}

// The matrix feed of a piece that begins at `start`.
#[unsafe(no_mangle)]
pub extern "C" fn watch_matrix_feed(
    list: &[u8],
    matrix: &[u8],
    flow: &mut [u8],
    start: u64,
    piece: &[u8],
    pairs: &mut [u32],
) -> WatchFed
    ensures { FaceAnswers (matrix_feed list.now matrix.now flow.old start piece.now pairs.old) result pairs.new flow.new }
{
    let f = matrix::feed(list, matrix, flow, start, piece, pairs);
    WatchFed::from(f)
}

// Fills the index of a table that the check accepts: 0, or the number of the refusal, which leaves the index as it is.
#[unsafe(no_mangle)]
pub extern "C" fn watch_fill_index(
    list: &[u8],
    bound: u64,
    classes: &[u8],
    parts: &[u8],
    rows: &[u8],
    splits: &[u8],
    index: &mut [u8],
) -> u32
    ensures { FillsIndex list.now bound (table classes.now parts.now rows.now splits.now)
        index.old result index.new }
{
    index_fill::fill(list, bound, classes, parts, rows, splits, index)
}

// The prepared feed of a piece that begins at `start`, from the split that is handed in where the flow stands there; any number may be.
#[unsafe(no_mangle)]
pub extern "C" fn watch_prepared_feed(
    splits: &[u8],
    index: &[u8],
    split: u32,
    flow: &mut [u8],
    start: u64,
    piece: &[u8],
    pairs: &mut [u32],
) -> WatchStood
    ensures { FaceAnswers (stand_feed splits.now index.now split flow.old start piece.now pairs.old) (stood_fed result) pairs.new flow.new
        × (result.split ≡ stood_at splits.now index.now split flow.old start piece.now pairs.old) }
{
    let s = index_feed::feed(splits, index, split as usize, flow, start, piece, pairs);
    face_stood(s)
}

// Builds the table of a list at bound 1 in four lent lists; 16 fills them with zeros, and another refusal leaves them as they are.
#[unsafe(no_mangle)]
pub extern "C" fn watch_build(
    list: &[u8],
    classes: &mut [u8],
    parts: &mut [u8],
    rows: &mut [u8],
    splits: &mut [u8],
) -> WatchBuilt
    ensures { Builds list.now (table classes.old parts.old rows.old splits.old)
        (face_built result (table classes.new parts.new rows.new splits.new)) }
{
    let built = table_build::build(list, classes, parts, rows, splits);
    WatchBuilt {
        classes: built.classes as u64,
        parts: built.parts as u64,
        rows: built.rows as u64,
        splits: built.splits as u64,
        refusal: built.refusal,
    }
}

// Splits and an index straight from a list, in two lent lists; 16 fills them with zeros, and another refusal leaves them as they are.
#[unsafe(no_mangle)]
pub extern "C" fn watch_prepare(list: &[u8], splits: &mut [u8], index: &mut [u8]) -> WatchMade
    ensures { Prepares list.now splits.old index.old (face_made result splits.new index.new) }
{
    let made = index_prepare::prepare(list, splits, index);
    WatchMade {
        splits: made.splits as u64,
        index: made.index as u64,
        refusal: made.refusal,
    }
}

// The check of an automaton with bits and counters: 0, or 24.
#[unsafe(no_mangle)]
pub extern "C" fn watch_x_check(moves: &[u8], programs: &[u8]) -> u32
    ensures { result ≡ machine_refusal moves.now programs.now }
{
    machine::check(moves, programs)
}

// Opens a flow on an automaton with bits and counters, and tells the pairs of offset 0; a refusal leaves the record and the words as they are.
#[unsafe(no_mangle)]
pub extern "C" fn watch_x_open(
    moves: &[u8],
    programs: &[u8],
    flow: &mut [u8],
    pairs: &mut [u32],
) -> WatchOpened
    ensures { FaceOpens (extended_open moves.now programs.now flow.old pairs.old) result pairs.new flow.new }
{
    let opened = machine::open_flow(moves, programs, flow, pairs);
    WatchOpened::from(opened)
}

// The feed of a piece that begins at `start` by an automaton with bits and counters.
#[unsafe(no_mangle)]
pub extern "C" fn watch_x_feed(
    moves: &[u8],
    programs: &[u8],
    flow: &mut [u8],
    start: u64,
    piece: &[u8],
    pairs: &mut [u32],
) -> WatchFed
    ensures { FaceAnswers (extended_feed moves.now programs.now flow.old start piece.now pairs.old) result pairs.new flow.new }
{
    let f = machine::feed(moves, programs, flow, start, piece, pairs);
    WatchFed::from(f)
}

// What taking a segment answers, as C lays it out: a refusal's number or 0, and the held place at exit.
#[repr(C)]
#[derive(Clone, Copy)]
pub struct WatchHeld {
    pub refusal: u32,
    pub start: u32,
    pub length: u32,
}

// The part that is due, as C lays it out: where it begins, how long it is, and in what: 0 nothing, 1 the held buffer, 2 the segment.
#[repr(C)]
#[derive(Clone, Copy)]
pub struct WatchPart {
    pub at: u64,
    pub length: u64,
    pub source: u32,
}

// Takes a segment: drops it, holds it, or refuses it with 18, which leaves the held place and the held buffer as they are.
#[unsafe(no_mangle)]
pub extern "C" fn watch_take(
    next: u32,
    held: &mut [u8],
    held_start: u32,
    held_length: u32,
    start: u32,
    segment: &[u8],
) -> WatchHeld
    ensures { FaceTakes (taking next held.old held_start held_length start segment.now) result held.new }
{
    let h = segment::take(next, held, held_start, held_length, start, segment);
    WatchHeld {
        refusal: h.refusal,
        start: h.start,
        length: h.length,
    }
}

// The part of the held buffer or of the segment that has the next bytes due.
#[unsafe(no_mangle)]
pub extern "C" fn watch_due(
    next: u32,
    held: &[u8],
    held_start: u32,
    held_length: u32,
    start: u32,
    segment: &[u8],
) -> WatchPart
    ensures { FaceFinds (part_due next (length held.now) held_start held_length start (length segment.now)) result }
{
    let part = segment::part_due(
        next,
        held.len(),
        held_start,
        held_length,
        start,
        segment.len(),
    );
    match part {
        None => WatchPart {
            at: 0,
            length: 0,
            source: 0,
        },
        Some(p) => WatchPart {
            at: p.at as u64,
            length: p.length as u64,
            source: segment::source_number(p.source),
        },
    }
}

// The check of a certificate that an automaton with bits and counters is a list's: the number of the first of the rules 1 to 3, 24 and 22 that
// refuses it, 0 where none does.
#[unsafe(no_mangle)]
pub extern "C" fn watch_check_certificate(
    list: &[u8],
    moves: &[u8],
    programs: &[u8],
    certificate: &[u8],
) -> u32
    ensures { result ≡ certificate_refusal list.now moves.now programs.now certificate.now }
{
    machine_certificate::check_certificate(list, moves, programs, certificate)
}

// Compiles a signature text to a list in the front of a lent one; a refusal leaves it as it is.
#[unsafe(no_mangle)]
pub extern "C" fn watch_compile(text: &[u8], signature: u8, list: &mut [u8]) -> WatchCompiled
    ensures { Compiles text.now signature list.old (face_compiled result) list.new }
{
    let compiled = text_compile::compile(text, signature, list);
    WatchCompiled {
        place: compiled.place as u64,
        length: compiled.length as u64,
        refusal: compiled.refusal,
    }
}

// Joins the list in the first `used` bytes of a lent one with another; a refusal leaves it as it is.
#[unsafe(no_mangle)]
pub extern "C" fn watch_join(list: &mut [u8], used: u64, other: &[u8]) -> WatchJoined
    ensures { Joins list.old used other.now (face_joined result) list.new }
{
    let joined = list_join::join(list, used as usize, other);
    WatchJoined {
        length: joined.length as u64,
        refusal: joined.refusal,
    }
}

// Folds a list into the front of a lent one: states with the same past become one; a refusal leaves that as it is.
#[unsafe(no_mangle)]
pub extern "C" fn watch_fold(list: &[u8], folded: &mut [u8]) -> WatchJoined
    ensures { FoldAnswers list.now folded.old (face_folded result) folded.new }
{
    let answer = list_fold::fold(list, folded);
    WatchJoined {
        length: answer.length as u64,
        refusal: answer.refusal,
    }
}

// Says why a pair is due: 0 and the states of a run that gives it, or the number of the refusal, which changes nothing.
#[unsafe(no_mangle)]
pub extern "C" fn watch_why(
    list: &[u8],
    flow: &[u8],
    start: u64,
    piece: &[u8],
    signature: u32,
    offset: u64,
    run: &mut [u16],
    work: &mut [u8],
) -> u32
    ensures { Explains list.now flow.now start piece.now (of_signature signature) offset run.old work.old result run.new work.new }
{
    list_why::why(list, flow, start, piece, signature, offset, run, work)
}

// Says why a state is in the frontier at an offset: the same, of a run that leads to it.
#[unsafe(no_mangle)]
pub extern "C" fn watch_why_state(
    list: &[u8],
    flow: &[u8],
    start: u64,
    piece: &[u8],
    state: u32,
    offset: u64,
    run: &mut [u16],
    work: &mut [u8],
) -> u32
    ensures { Explains list.now flow.now start piece.now (of_state state) offset run.old work.old result run.new work.new }
{
    list_why::why_state(list, flow, start, piece, state, offset, run, work)
}

// What the question which edge record leads from one state to another answers, as C lays it out; the place is `record` there.
#[repr(C)]
#[derive(Clone, Copy)]
pub struct WatchFound {
    pub place: u64,
    pub refusal: u32,
}

// Says which edge record leads from one state to another on a byte: the first, counted from 0.
#[unsafe(no_mangle)]
pub extern "C" fn watch_edge(list: &[u8], from: u32, byte: u32, to: u32) -> WatchFound
    ensures { Finds list.now from byte to (face_found result) }
{
    let found = list_why::find_edge(list, from, byte, to);
    WatchFound {
        place: found.place as u64,
        refusal: found.refusal,
    }
}

// Renews a list's flow record: its frontier stays, offset and rows become 0. 0, or 4, which leaves the record as it is.
#[unsafe(no_mangle)]
pub extern "C" fn watch_renew(flow: &mut [u8]) -> u32
    ensures { Renews flow.old result flow.new }
{
    list_renew::renew(flow)
}

// The offset of a flow record of either size; of another length 18,446,744,073,709,551,615.
#[unsafe(no_mangle)]
pub extern "C" fn watch_offset(flow: &[u8]) -> u64
    ensures { result ≡ offset_said flow.now }
{
    list_renew::offset(flow)
}

// What feeding a segment answers, as C lays it out; the held place at exit is `held_start` and `held_length` there.
#[repr(C)]
#[derive(Clone, Copy)]
pub struct WatchHeard {
    pub bytes: u64,
    pub pairs: u64,
    pub refusal: u32,
    pub start: u32,
    pub length: u32,
    pub all: bool,
}

// Feeds a segment to a flow by its list alone: at most four looks. A refusal at the door changes nothing; one that a later look meets keeps what
// the looks before it did.
#[unsafe(no_mangle)]
pub extern "C" fn watch_feed_segment(
    list: &[u8],
    flow: &mut [u8],
    first: u32,
    held: &mut [u8],
    held_start: u32,
    held_length: u32,
    start: u32,
    segment: &[u8],
    pairs: &mut [u32],
) -> WatchHeard
    ensures { Hears (plain_segment list.now (sent first start segment.now)
        (kept flow.old held.old held_start held_length) pairs.old)
        (face_heard result) pairs.new flow.new held.new }
{
    let h = segment_feed::feed_segment(
        list,
        flow,
        first,
        held,
        held_start,
        held_length,
        start,
        segment,
        pairs,
    );
    WatchHeard::from(h)
}

// Feeds a segment to a flow by its table, in the same way.
#[unsafe(no_mangle)]
pub extern "C" fn watch_split_feed_segment(
    list: &[u8],
    bound: u64,
    classes: &[u8],
    parts: &[u8],
    rows: &[u8],
    splits: &[u8],
    flow: &mut [u8],
    first: u32,
    held: &mut [u8],
    held_start: u32,
    held_length: u32,
    start: u32,
    segment: &[u8],
    pairs: &mut [u32],
) -> WatchHeard
    ensures { Hears (split_segment list.now bound
        (table classes.now parts.now rows.now splits.now) (sent first start segment.now)
        (kept flow.old held.old held_start held_length) pairs.old)
        (face_heard result) pairs.new flow.new held.new }
{
    let h = segment_feed::split_feed_segment(
        list,
        bound,
        classes,
        parts,
        rows,
        splits,
        flow,
        first,
        held,
        held_start,
        held_length,
        start,
        segment,
        pairs,
    );
    WatchHeard::from(h)
}

// What feeding a segment by an index answers, as C lays it out: the split where the flow then stands beside the rest.
#[repr(C)]
#[derive(Clone, Copy)]
pub struct WatchHeardAt {
    pub bytes: u64,
    pub pairs: u64,
    pub refusal: u32,
    pub start: u32,
    pub length: u32,
    pub all: bool,
    pub split: u32,
}

// Feeds a segment to a flow by its index, in the same way, from the split that is handed in where the flow stands there; any number may be.
#[unsafe(no_mangle)]
pub extern "C" fn watch_prepared_feed_segment(
    splits: &[u8],
    index: &[u8],
    split: u32,
    flow: &mut [u8],
    first: u32,
    held: &mut [u8],
    held_start: u32,
    held_length: u32,
    start: u32,
    segment: &[u8],
    pairs: &mut [u32],
) -> WatchHeardAt
    ensures { Hears (stand_segment splits.now index.now split (sent first start segment.now)
        (kept flow.old held.old held_start held_length) pairs.old)
        (face_heard_at result) pairs.new flow.new held.new
        × (result.split ≡ stood_by splits.now index.now split (sent first start segment.now)
        (kept flow.old held.old held_start held_length) pairs.old) }
{
    let s = segment_index::feed_segment(
        splits,
        index,
        split as usize,
        flow,
        first,
        held,
        held_start,
        held_length,
        start,
        segment,
        pairs,
    );
    let h = s.heard;
    WatchHeardAt {
        bytes: h.bytes as u64,
        pairs: h.pairs as u64,
        refusal: h.refusal,
        start: h.start,
        length: h.length,
        all: h.all,
        split: s.split as u32,
    }
}

// Feeds a segment to a flow by an automaton with bits and counters, in the same way.
#[unsafe(no_mangle)]
pub extern "C" fn watch_x_feed_segment(
    moves: &[u8],
    programs: &[u8],
    flow: &mut [u8],
    first: u32,
    held: &mut [u8],
    held_start: u32,
    held_length: u32,
    start: u32,
    segment: &[u8],
    pairs: &mut [u32],
) -> WatchHeard
    ensures { Hears (machine_segment moves.now programs.now (sent first start segment.now)
        (kept flow.old held.old held_start held_length) pairs.old)
        (face_heard result) pairs.new flow.new held.new }
{
    let h = segment_machine::feed_segment(
        moves,
        programs,
        flow,
        first,
        held,
        held_start,
        held_length,
        start,
        segment,
        pairs,
    );
    WatchHeard::from(h)
}
