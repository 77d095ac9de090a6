// The driver of the C face: code for no user. It calls each exported name, and promises that what they answer and leave is the definitions'.
#![tactic(auto)]

ghost use Rattle.std.specs.Prelude.{◌≡◌, length};
ghost use Rattle.list.specs.List.{list_refusal};
ghost use Rattle.list_flow.specs.Opening.{open_flow};
ghost use Rattle.list_feed.specs.Plain.{plain_feed};
ghost use Rattle.table.specs.Table.{table, table_refusal};
ghost use Rattle.table_feed.specs.Split.{split_feed};
ghost use Rattle.matrix.specs.Matrix.{Fills, matrix_feed};
ghost use Rattle.index.specs.Stand.{stand_feed, stood_at};
ghost use Rattle.index_fill.specs.Filled.{FillsIndex};
ghost use Rattle.table_build.specs.Build.{Builds};
ghost use Rattle.index_prepare.specs.Prepare.{Prepares};
ghost use Rattle.machine.specs.Machine.{machine_refusal};
ghost use Rattle.machine.specs.Extended.{extended_open, extended_feed};
ghost use Rattle.segment.specs.Resend.{taking, due};
ghost use Rattle.machine_certificate.specs.Certificate.{certificate_refusal};
ghost use Rattle.watch_c.specs.Face.{version, held, stood_fed, face_built, face_made, face_compiled, face_joined, face_folded};
ghost use Rattle.text_compile.specs.Compile.{Compiles};
ghost use Rattle.list_join.specs.Join.{Joins};
ghost use Rattle.list_fold.specs.Fold.{FoldAnswers};
ghost use Rattle.watch_c.specs.Why.{face_found};
ghost use Rattle.list_why.specs.Run.{of_signature, of_state};
ghost use Rattle.list_why.specs.Reason.{Explains, Finds};
ghost use Rattle.list_renew.specs.Renewal.{Renews, offset_said};
ghost use Rattle.segment_feed.specs.Ways.{plain_segment, split_segment};
ghost use Rattle.segment_feed.specs.Post.{Hears, sent, kept};
ghost use Rattle.segment_index.specs.Standing.{stand_segment, stood_by};
ghost use Rattle.segment_machine.specs.Ways.{machine_segment};
ghost use Rattle.watch_c.specs.Segments.{face_heard, face_heard_at};
ghost use Rattle.watch_c_laws.specs.Faced.{held_open};
ghost use Rattle.watch_c_laws.specs.Resent.{held_place, part_of};

use watch_c::{
    WatchBuilt, WatchCompiled, WatchFed, WatchFound, WatchHeard, WatchHeardAt, WatchHeld,
    WatchJoined, WatchMade, WatchOpened, WatchPart, WatchStood,
};

// What the calls answered: the two checks, the opening, and both feeds.
#[derive(Clone, Copy)]
struct Drove {
    listed: u32,
    checked: u32,
    opened: WatchOpened,
    fed: WatchFed,
    split: WatchFed,
}

// Calls the exported name that takes nothing.
fn drive_version() -> u32
    ensures { result ≡ version }
{
    watch_c::watch_version()
}

// Calls both checks, opening, the plain feed and the split feed once, each on buffers of its own.
fn drive_faces(
    list: &[u8],
    bound: u64,
    classes: &[u8],
    parts: &[u8],
    rows: &[u8],
    splits: &[u8],
    start: u64,
    piece: &[u8],
    opening: &mut [u8],
    first_pairs: &mut [u32],
    flow: &mut [u8],
    pairs: &mut [u32],
    split_flow: &mut [u8],
    split_pairs: &mut [u32],
) -> Drove
    ensures lists { result.listed ≡ list_refusal list.now }
    ensures tables { result.checked ≡ table_refusal list.now bound
        (table classes.now parts.now rows.now splits.now) }
    ensures opens { held_open result.opened first_pairs.new opening.new
        ≡ open_flow list.now opening.old first_pairs.old }
    ensures feeds { held result.fed pairs.new flow.new
        ≡ plain_feed list.now flow.old start piece.now pairs.old }
    ensures split_feeds { held result.split split_pairs.new split_flow.new
        ≡ split_feed list.now bound (table classes.now parts.now rows.now splits.now)
        split_flow.old start piece.now split_pairs.old }
{
    let listed = watch_c::watch_check_list(list);
    let checked = watch_c::watch_check_table(list, bound, classes, parts, rows, splits);
    let opened = watch_c::watch_open(list, opening, first_pairs);
    let fed = watch_c::watch_feed(list, flow, start, piece, pairs);
    let split = watch_c::watch_split_feed(
        list,
        bound,
        classes,
        parts,
        rows,
        splits,
        split_flow,
        start,
        piece,
        split_pairs,
    );
    Drove {
        listed,
        checked,
        opened,
        fed,
        split,
    }
}

// What a filler and a feed by what it left answered.
#[derive(Clone, Copy)]
struct DroveFilled {
    filled: u32,
    fed: WatchFed,
}

// Fills a matrix and feeds a piece by it. Where the filler refuses nothing, that is the plain feed.
fn drive_matrix(
    list: &[u8],
    matrix: &mut [u8],
    flow: &mut [u8],
    start: u64,
    piece: &[u8],
    pairs: &mut [u32],
) -> DroveFilled
    ensures fills { Fills list.now matrix.old result.filled matrix.new }
    ensures feeds { held result.fed pairs.new flow.new
        ≡ matrix_feed list.now matrix.new flow.old start piece.now pairs.old }
    ensures plainly { result.filled ≡ 0 → held result.fed pairs.new flow.new
        ≡ plain_feed list.now flow.old start piece.now pairs.old }
{
    let filled = watch_c::watch_fill_matrix(list, matrix);
    let fed = watch_c::watch_matrix_feed(list, matrix, flow, start, piece, pairs);
    DroveFilled { filled, fed }
}

// What the filler of an index and a feed by what it left answered.
#[derive(Clone, Copy)]
struct DroveIndex {
    filled: u32,
    stood: WatchStood,
}

// Fills an index and feeds a piece by it, whatever split is handed in. Where the filler refuses nothing, that is the split feed.
fn drive_index(
    list: &[u8],
    bound: u64,
    classes: &[u8],
    parts: &[u8],
    rows: &[u8],
    splits: &[u8],
    index: &mut [u8],
    split: u32,
    flow: &mut [u8],
    start: u64,
    piece: &[u8],
    pairs: &mut [u32],
) -> DroveIndex
    ensures fills { FillsIndex list.now bound (table classes.now parts.now rows.now splits.now)
        index.old result.filled index.new }
    ensures feeds { held (stood_fed result.stood) pairs.new flow.new
        ≡ stand_feed splits.now index.new split flow.old start piece.now pairs.old }
    ensures stands { result.stood.split ≡ stood_at splits.now index.new split flow.old start piece.now pairs.old }
    ensures splitly { result.filled ≡ 0 → held (stood_fed result.stood) pairs.new flow.new
        ≡ split_feed list.now bound (table classes.now parts.now rows.now splits.now)
        flow.old start piece.now pairs.old }
{
    let filled = watch_c::watch_fill_index(list, bound, classes, parts, rows, splits, index);
    let stood = watch_c::watch_prepared_feed(splits, index, split, flow, start, piece, pairs);
    DroveIndex { filled, stood }
}

// Calls the exported name that builds a table.
fn drive_build(
    list: &[u8],
    classes: &mut [u8],
    parts: &mut [u8],
    rows: &mut [u8],
    splits: &mut [u8],
) -> WatchBuilt
    ensures { Builds list.now (table classes.old parts.old rows.old splits.old)
        (face_built result (table classes.new parts.new rows.new splits.new)) }
{
    watch_c::watch_build(list, classes, parts, rows, splits)
}

// Calls the exported name that prepares a list.
fn drive_prepare(list: &[u8], splits: &mut [u8], index: &mut [u8]) -> WatchMade
    ensures { Prepares list.now splits.old index.old (face_made result splits.new index.new) }
{
    watch_c::watch_prepare(list, splits, index)
}

// What the calls for the automaton with bits and counters answered: the check, the opening, and the feed.
#[derive(Clone, Copy)]
struct DroveExtended {
    checked: u32,
    opened: WatchOpened,
    fed: WatchFed,
}

// Calls each exported name of the automaton with bits and counters once, each on buffers of its own.
fn drive_extended(
    moves: &[u8],
    programs: &[u8],
    start: u64,
    piece: &[u8],
    opening: &mut [u8],
    first_pairs: &mut [u32],
    flow: &mut [u8],
    pairs: &mut [u32],
) -> DroveExtended
    ensures checks { result.checked ≡ machine_refusal moves.now programs.now }
    ensures opens { held_open result.opened first_pairs.new opening.new
        ≡ extended_open moves.now programs.now opening.old first_pairs.old }
    ensures feeds { held result.fed pairs.new flow.new
        ≡ extended_feed moves.now programs.now flow.old start piece.now pairs.old }
{
    let checked = watch_c::watch_x_check(moves, programs);
    let opened = watch_c::watch_x_open(moves, programs, opening, first_pairs);
    let fed = watch_c::watch_x_feed(moves, programs, flow, start, piece, pairs);
    DroveExtended {
        checked,
        opened,
        fed,
    }
}

// What taking a segment and asking for what is due answered.
#[derive(Clone, Copy)]
struct DroveSegment {
    taken: WatchHeld,
    part: WatchPart,
}

// Takes a segment, and asks for the part that is then due: it is the bytes due.
fn drive_segment(
    next: u32,
    held: &mut [u8],
    held_start: u32,
    held_length: u32,
    start: u32,
    segment: &[u8],
) -> DroveSegment
    ensures takes { held_place result.taken held.new ≡ taking next held.old held_start held_length start segment.now }
    ensures dues { part_of result.part held.new segment.now
        ≡ due next held.new result.taken.start result.taken.length start segment.now }
{
    let taken = watch_c::watch_take(next, held, held_start, held_length, start, segment);
    let part = watch_c::watch_due(next, held, taken.start, taken.length, start, segment);
    DroveSegment { taken, part }
}

// Calls the exported name that checks a certificate.
fn drive_certificate(list: &[u8], moves: &[u8], programs: &[u8], certificate: &[u8]) -> u32
    ensures { result ≡ certificate_refusal list.now moves.now programs.now certificate.now }
{
    watch_c::watch_check_certificate(list, moves, programs, certificate)
}

// Calls the exported name that compiles a text.
fn drive_compile(text: &[u8], signature: u8, list: &mut [u8]) -> WatchCompiled
    ensures { Compiles text.now signature list.old (face_compiled result) list.new }
{
    watch_c::watch_compile(text, signature, list)
}

// Calls the exported name that joins two lists.
fn drive_join(list: &mut [u8], used: u64, other: &[u8]) -> WatchJoined
    ensures { Joins list.old used other.now (face_joined result) list.new }
{
    watch_c::watch_join(list, used, other)
}

// Calls the exported name that folds a list.
fn drive_fold(list: &[u8], folded: &mut [u8]) -> WatchJoined
    ensures { FoldAnswers list.now folded.old (face_folded result) folded.new }
{
    watch_c::watch_fold(list, folded)
}

// Calls the exported name that says why a pair is due.
fn drive_why(
    list: &[u8],
    flow: &[u8],
    start: u64,
    piece: &[u8],
    signature: u32,
    offset: u64,
    run: &mut [u16],
    work: &mut [u8],
) -> u32
    ensures { Explains list.now flow.now start piece.now (of_signature signature) offset run.old work.old result run.new work.new }
{
    watch_c::watch_why(list, flow, start, piece, signature, offset, run, work)
}

// Calls the exported name that says why a state is in the frontier.
fn drive_why_state(
    list: &[u8],
    flow: &[u8],
    start: u64,
    piece: &[u8],
    state: u32,
    offset: u64,
    run: &mut [u16],
    work: &mut [u8],
) -> u32
    ensures { Explains list.now flow.now start piece.now (of_state state) offset run.old work.old result run.new work.new }
{
    watch_c::watch_why_state(list, flow, start, piece, state, offset, run, work)
}

// Calls the exported name that finds an edge.
fn drive_edge(list: &[u8], from: u32, byte: u32, to: u32) -> WatchFound
    ensures { Finds list.now from byte to (face_found result) }
{
    watch_c::watch_edge(list, from, byte, to)
}

// Calls the exported name that renews a record.
fn drive_renew(flow: &mut [u8]) -> u32
    ensures { Renews flow.old result flow.new }
{
    watch_c::watch_renew(flow)
}

// Calls the exported name that answers a record's offset.
fn drive_offset(flow: &[u8]) -> u64
    ensures { result ≡ offset_said flow.now }
{
    watch_c::watch_offset(flow)
}

// Calls the exported name that feeds a segment by the list alone.
fn drive_feed_segment(
    list: &[u8],
    flow: &mut [u8],
    first: u32,
    held: &mut [u8],
    held_start: u32,
    held_length: u32,
    start: u32,
    segment: &[u8],
    pairs: &mut [u32],
) -> WatchHeard
    ensures { Hears (plain_segment list.now (sent first start segment.now)
        (kept flow.old held.old held_start held_length) pairs.old)
        (face_heard result) pairs.new flow.new held.new }
{
    watch_c::watch_feed_segment(
        list,
        flow,
        first,
        held,
        held_start,
        held_length,
        start,
        segment,
        pairs,
    )
}

// Calls the exported name that feeds a segment by the table.
fn drive_split_feed_segment(
    list: &[u8],
    bound: u64,
    classes: &[u8],
    parts: &[u8],
    rows: &[u8],
    splits: &[u8],
    flow: &mut [u8],
    first: u32,
    held: &mut [u8],
    held_start: u32,
    held_length: u32,
    start: u32,
    segment: &[u8],
    pairs: &mut [u32],
) -> WatchHeard
    ensures { Hears (split_segment list.now bound
        (table classes.now parts.now rows.now splits.now) (sent first start segment.now)
        (kept flow.old held.old held_start held_length) pairs.old)
        (face_heard result) pairs.new flow.new held.new }
{
    watch_c::watch_split_feed_segment(
        list,
        bound,
        classes,
        parts,
        rows,
        splits,
        flow,
        first,
        held,
        held_start,
        held_length,
        start,
        segment,
        pairs,
    )
}

// Calls the exported name that feeds a segment by an index.
fn drive_prepared_feed_segment(
    splits: &[u8],
    index: &[u8],
    split: u32,
    flow: &mut [u8],
    first: u32,
    held: &mut [u8],
    held_start: u32,
    held_length: u32,
    start: u32,
    segment: &[u8],
    pairs: &mut [u32],
) -> WatchHeardAt
    ensures { Hears (stand_segment splits.now index.now split (sent first start segment.now)
        (kept flow.old held.old held_start held_length) pairs.old)
        (face_heard_at result) pairs.new flow.new held.new
        × (result.split ≡ stood_by splits.now index.now split (sent first start segment.now)
        (kept flow.old held.old held_start held_length) pairs.old) }
{
    watch_c::watch_prepared_feed_segment(
        splits,
        index,
        split,
        flow,
        first,
        held,
        held_start,
        held_length,
        start,
        segment,
        pairs,
    )
}

// Calls the exported name that feeds a segment by an automaton with bits and counters.
fn drive_x_feed_segment(
    moves: &[u8],
    programs: &[u8],
    flow: &mut [u8],
    first: u32,
    held: &mut [u8],
    held_start: u32,
    held_length: u32,
    start: u32,
    segment: &[u8],
    pairs: &mut [u32],
) -> WatchHeard
    ensures { Hears (machine_segment moves.now programs.now (sent first start segment.now)
        (kept flow.old held.old held_start held_length) pairs.old)
        (face_heard result) pairs.new flow.new held.new }
{
    watch_c::watch_x_feed_segment(
        moves,
        programs,
        flow,
        first,
        held,
        held_start,
        held_length,
        start,
        segment,
        pairs,
    )
}
