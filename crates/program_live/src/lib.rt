// A live line and a recorded one, as a library. Each turn's text is handed over before the next turn: lines, then, on a live line, the state as it is behind
// them. So a run that is cut anywhere goes on from the state that was last handed over whole, with the lines cut to its length and the line moved to its place.
// The methods of `Ends` alone reach out, to files or to arrays in their place. Of a run on arrays `Line::run` promises what is handed over, for every list, state and
// recording, and all answers of the writes.
#![tactic(auto)]

ghost use Rattle.std.specs.Prelude.{◌≡◌, ◌+◌, ◌≤◌, length, take, drop};
ghost use Rattle.io.specs.Counts.{IsPrefixLen};
ghost use Rattle.program_text.specs.Hand.{handed, Takes, Logs};
ghost use Rattle.program_turn.specs.State.{state_size};
ghost use Rattle.program_turn.specs.Turn.{most_unit, text_size, number_of, saves};
ghost use Rattle.program_live.specs.Live.{most_turns, no_unit_yet, unit_at, next_of, texts_from, texts_on, texts, none_at, none_left, less_of, Stands, OnArrays};
ghost use Rattle.program_live.specs.Live as def;

use program_text::Taken;
use program_turn::{Kind, Next};
use std::fs;
use std::fs::File;
use std::io::{Error, ErrorKind, Read, Seek, SeekFrom};
use std::os::fd::AsRawFd;

// The most turns of a run: at a turn a nanosecond more than a hundred years. A run that makes them ends, with the state handed over.
const MOST_TURNS: u64 = 4611686018427387904;

// What was read: the number of its first byte, none where no unit is there, which part of it is left, and where the next one stands in a recording.
#[derive(Clone, Copy)]
struct Unit {
    start: Option<u32>,
    from: usize,
    to: usize,
    at: usize,
}

// What a run reaches outside: the file of the line, standard input where it is none; that of the lines, standard output where it is none; and the name of the state's, where there is one.
#[derive(Clone, Copy)]
struct Reach<'a> {
    rt: &'a HostRuntime,
    line: Option<&'a File>,
    lines: Option<&'a File>,
    name: Option<&'a str>,
}

// Where a run reads and writes: files; or arrays, a recording and the answers of the writes.
#[derive(Clone, Copy)]
enum Ends<'a> {
    Files(Reach<'a>),
    Arrays { input: &'a [u8], answers: &'a [u8] },
}

// A line that is watched: by which list, whether a state is kept, and where it is read and its lines go.
// No other field hangs on the flag: the promise is for both.
#[derive(Clone, Copy)]
struct Line<'a> {
    list: &'a [u8],
    keeping: bool,
    ends: Ends<'a>,
}

// Where a run begins: what its first turn does, how many texts were handed over, where the log ends, and the most turns.
#[derive(Clone, Copy)]
struct Begun {
    next: Next,
    texts: usize,
    end: usize,
    most: u64,
}

// What went wrong was said to people.
#[derive(Clone, Copy)]
struct Told;

// ---- what is read

// No unit, at a place of a recording.
fn no_unit(at: usize) -> Unit
    ensures { result ≡ none_at at }
{
    Unit {
        start: None,
        from: 0,
        to: 0,
        at,
    }
}

// The unit before the first one: nothing is left of it.
fn before_all() -> Unit
    ensures { result ≡ none_left }
{
    Unit {
        start: Some(0),
        from: 0,
        to: 0,
        at: 0,
    }
}

// A unit of which some more bytes are done with.
fn less(u: Unit, done: usize) -> Unit
    requires { u.from ≤ u.to }
    ensures { result ≡ less_of u done }
{
    Unit {
        from: if u.to - u.from < done {
            u.to
        } else {
            u.from + done
        },
        ..u
    }
}

// The unit that stands at a place of a recording, put into the array; none where the recording ends before it does.
fn recorded_unit(input: &[u8], at: usize, bytes: &mut [u8]) -> Unit
    requires { length bytes.old ≡ most_unit }
    ensures { Stands (unit_at input.now at) result bytes.new }
{
    if input.len() < at {
        return no_unit(at);
    }
    let left = input.len() - at;
    if left < program_turn::HEAD {
        return no_unit(at);
    }
    let n = (numbers::number_at(input, at + 4, 2) % 65536) as usize;
    if left - program_turn::HEAD < n {
        return no_unit(at);
    }
    Unit {
        start: Some(program_turn::short_number(input, at)),
        from: 0,
        to: program_text::put_bytes(
            bytes,
            0,
            &input[at + program_turn::HEAD..at + program_turn::HEAD + n],
        ),
        at: at + program_turn::HEAD + n,
    }
}

// Reads a segment of a line; none where the line ends before it does.
fn read_segment<R: Read + Drop>(mut line: R, bytes: &mut [u8]) -> Unit
    requires { length bytes.old ≡ most_unit }
    ensures { (result.from ≤ result.to) × (result.to ≤ most_unit) }
{
    let mut head = [0u8; program_turn::HEAD];
    if line.read_exact(&mut head).is_err() {
        return no_unit(0);
    }
    let n = (numbers::number_at(&head, 4, 2) % 65536) as usize;
    if line.read_exact(&mut bytes[..n]).is_err() {
        return no_unit(0);
    }
    Unit {
        start: Some(program_turn::short_number(&head, 0)),
        from: 0,
        to: n,
        at: 0,
    }
}

// ---- what is written

// Says what went wrong to people, where something did, and the system's word for it.
fn or_say<T>(rt: &HostRuntime, what: &str, got: Result<T, Error>) -> Result<T, Told> {
    match got {
        Ok(value) => Ok(value),
        Err(error) => {
            program_system::say_error(rt, what, &error);
            Err(Told)
        }
    }
}

// Puts the name of the file beside the state's into an array; answers its length, 0 where it is too long: an empty name is that of no file.
// In an array: so a state is saved without memory that may be missing.
fn put_fresh(name: &str, fresh: &mut [u8]) -> usize
    ensures { IsPrefixLen result fresh.new }
{
    if fresh.len() < 4 || fresh.len() - 4 < name.len() {
        return 0;
    }
    let at = program_text::put_bytes(fresh, 0, name.as_bytes());
    program_text::put_bytes(fresh, at, b".new")
}

// Writes a state to a file, and waits until it has reached its device.
fn put(rt: &HostRuntime, fresh: &str, state: &[u8]) -> Result<(), Error> {
    let file = File::create(rt, fresh)?;
    program_system::write_whole(rt, Some(&file), state)?;
    program_system::sync_where_file(&file)
}

impl Reach<'_> {
    // Reads what has come of a line; where nothing more comes, no bytes. A read that fails counts as none.
    fn read_bytes(&self, bytes: &mut [u8]) -> Unit
        requires { length bytes.old ≡ most_unit }
        ensures { (result.from ≤ result.to) × (result.to ≤ most_unit) }
    {
        Unit {
            start: Some(0),
            from: 0,
            to: program_system::read_some(self.rt, self.line, bytes),
            at: 0,
        }
    }

    // Reads a unit of a line, by its kind.
    fn read_unit(&self, state: &[u8], bytes: &mut [u8]) -> Unit
        requires { length bytes.old ≡ most_unit }
        ensures { (result.from ≤ result.to) × (result.to ≤ most_unit) }
    {
        if program_turn::is_kind(state, Kind::Bytes) {
            return self.read_bytes(bytes);
        }
        match self.line {
            Some(file) => read_segment(file, bytes),
            None => read_segment(self.rt.stdin(), bytes),
        }
    }

    // Writes lines, and where a state is kept waits until they have reached their device.
    fn write(&self, keeping: bool, text: &[u8]) -> Result<(), Told> {
        or_say(
            self.rt,
            "watch: the lines cannot be written",
            program_system::write_whole(self.rt, self.lines, text),
        )?;
        match self.lines {
            // (where they have not, the run ends, and nothing is said)
            Some(file) if keeping => program_system::sync_where_file(file).map_err(|_| Told),
            _ => Ok(()),
        }
    }

    // Puts a new file in the place of the state's whole; a line without one keeps none.
    fn save(&self, state: &[u8]) -> Result<(), Told> {
        let Some(name) = self.name else {
            return Ok(());
        };
        let mut space = io::buffer();
        let n = put_fresh(name, &mut space);
        let fresh = str::from_utf8(&space[..n]).unwrap_or("");
        or_say(
            self.rt,
            "watch: the state cannot be written",
            put(self.rt, fresh, state),
        )?;
        or_say(
            self.rt,
            "watch: the state cannot be put in the place of the old one",
            fs::rename(self.rt, fresh, name),
        )
    }

    // Hands a text over: a state to its file, lines to theirs.
    fn hand_over(&self, keeping: bool, next: Next, text: &[u8]) -> Result<(), Told> {
        match next {
            Next::Save => self.save(text),
            Next::Feed => self.write(keeping, text),
        }
    }
}

impl Ends<'_> {
    // The unit of a turn: what is left of the last one, also where the state comes next; else the next one, of the line or of a recording.
    fn next_unit(&self, next: Next, state: &[u8], bytes: &mut [u8], u: Unit) -> Unit
        requires { (length bytes.old ≡ most_unit) × (u.from ≤ u.to) × (u.to ≤ most_unit) }
        ensures from_le_to { (result.from ≤ result.to) × (result.to ≤ most_unit) }
        ensures stands { OnArrays self.now (λ input answers. (g : def.Unit) → Stands g u bytes.old → Stands (next_of input (saves next) g) result bytes.new) }
    {
        if let Next::Save = next {
            return u;
        }
        if u.from < u.to {
            return u;
        }
        match *self {
            Ends::Files(reach) => reach.read_unit(state, bytes),
            Ends::Arrays { input, .. } => recorded_unit(input, u.at, bytes),
        }
    }

    // Hands the text of a turn over; or puts it to the end of the log, with answer number i.
    fn hand_over(
        &self,
        keeping: bool,
        next: Next,
        text: &[u8],
        i: usize,
        log: &mut [u8],
        end: usize,
    ) -> Taken
        requires { end ≤ length log.old }
        ensures end_in_bounds { result.end ≤ length log.new }
        ensures takes { OnArrays self.now (λ input answers. end + length text.now ≤ length log.old
            → Takes text.now answers i log.old end result log.new) }
    {
        match *self {
            Ends::Files(reach) => Taken {
                cut: reach.hand_over(keeping, next, text).is_err(),
                end,
            },
            Ends::Arrays { input, answers } => {
                let arrays = program_text::Ends::Arrays { input, answers };
                program_text::hand(arrays, text, i, log, end)
            }
        }
    }

    // Says that a segment has to be sent again, where that is not among the lines.
    fn say_again(&self, keeping: bool, again: Option<u32>) {
        if let Ends::Files(reach) = *self {
            if let Some(start) = again {
                if keeping {
                    let _said = eprintln!(reach.rt; "watch: again {start}").is_ok();
                }
            }
        }
    }
}

// ---- a run

impl Line<'_> {
    // Runs from a state on: each turn's text is handed over, up to the last one or the first that is cut. Answers where the log ends.
    fn run(
        &self,
        state: &mut [u8],
        bytes: &mut [u8],
        text: &mut [u8],
        log: &mut [u8],
        begun: Begun,
    ) -> usize
        requires { (length state.old ≡ state_size) × (length bytes.old ≡ most_unit) × (text_size ≤ length text.old) × (begun.end ≤ length log.old) × (begun.texts ≤ 1) × (begun.most ≤ most_turns) }
        ensures { OnArrays self.now.ends (λ input answers.
            Logs begun.end (handed (texts_from begun.most self.now.keeping self.now.list.now input (saves begun.next) state.old no_unit_yet) (drop begun.texts answers))
            log.old result log.new) }
    {
        let mut u = before_all();
        let mut next = begun.next;
        let mut end = begun.end;
        for k in 0..begun.most {
            let unit = self.ends.next_unit(next, state, bytes, u);
            let part = &bytes[unit.from..unit.to];
            let said = program_turn::turn(
                self.keeping,
                next,
                self.list,
                state,
                unit.start,
                part,
                text,
            );
            let i = begun.texts + k as usize;
            let taken = self
                .ends
                .hand_over(self.keeping, next, &text[..said.length], i, log, end);
            end = taken.end;
            self.ends.say_again(self.keeping, said.again);
            let Some(then) = said.next else {
                return end;
            };
            if taken.cut {
                return end;
            }
            u = less(unit, said.done);
            next = then;
        }
        end
    }

    // Runs from a state that was handed over. Answers where the log ends.
    fn go_on(&self, state: &mut [u8], log: &mut [u8]) -> usize
        requires { length state.old ≡ state_size }
        ensures { OnArrays self.now.ends (λ input answers.
            Logs 0 (handed (texts_on self.now.keeping self.now.list.now input state.old) answers) log.old result log.new) }
    {
        let mut bytes = io::large_buffer();
        let mut text = io::large_buffer();
        let begun = Begun {
            next: Next::Feed,
            texts: 0,
            end: 0,
            most: MOST_TURNS,
        };
        self.run(state, &mut bytes, &mut text, log, begun)
    }

    // Runs from the opening on, which is refused before any input is read. Answers where the log ends.
    fn watch(&self, kind: Kind, log: &mut [u8]) -> usize
        ensures { OnArrays self.now.ends (λ input answers.
            Logs 0 (handed (texts self.now.keeping (number_of kind) self.now.list.now input) answers) log.old result log.new) }
    {
        let mut state = program_turn::state_buffer();
        let mut bytes = io::large_buffer();
        let mut text = io::large_buffer();
        program_turn::fresh_state(self.list, kind.number(), &mut state);
        let said = program_turn::begin(self.keeping, self.list, &mut state, &mut text);
        let first = &text[..said.length];
        let taken = self
            .ends
            .hand_over(self.keeping, Next::Feed, first, 0, log, 0);
        let end = taken.end;
        let Some(next) = said.next else {
            return end;
        };
        if taken.cut {
            return end;
        }
        let begun = Begun {
            next,
            texts: 1,
            end,
            most: MOST_TURNS,
        };
        self.run(&mut state, &mut bytes, &mut text, log, begun)
    }
}

// ---- the programs

// Whether a file has so many bytes.
fn has_bytes(file: &File, n: u64) -> bool {
    let mut at = file;
    at.seek(SeekFrom::End(0)).is_ok_and(|size| n <= size)
}

// Cuts a file to a length, and moves to its end.
fn cut(file: &File, to: u64) -> Result<(), Error> {
    file.set_len(to)?;
    let mut at = file;
    let _at = at.seek(SeekFrom::Start(to))?;
    Ok(())
}

// A count as a place in a file: the largest that there is where it is larger.
fn signed(n: u64) -> u64 {
    n.min(9223372036854775807)
}

// A live line: the list and the kind of the line, and the names of its file, of the saved state's, and of the lines'.
#[derive(Clone, Copy)]
struct LiveLine<'a> {
    rt: &'a HostRuntime,
    kind: Kind,
    list: &'a [u8],
    line: &'a [u8],
    name: &'a [u8],
    lines: &'a [u8],
}

impl LiveLine<'_> {
    // Loads the saved state; answers whether there is one.
    fn load(&self, state: &mut [u8]) -> Result<bool, Told> {
        let file = match program_system::open_read(self.rt, self.name) {
            Err(error) if error.kind() == ErrorKind::NotFound => return Ok(false),
            opened => or_say(self.rt, "watch: the state cannot be read", opened)?,
        };
        let number = file.as_raw_fd();
        let n = io::read_full(number, state);
        let mut behind = [0u8; 1];
        let more = io::read_full(number, &mut behind);
        if n + more != program_turn::STATE_SIZE {
            let size = program_turn::STATE_SIZE;
            let _said = eprintln!(self.rt;
                "watch: this is no state; its bytes are not {size}"
            ).is_ok();
            return Err(Told);
        }
        Ok(true)
    }

    // Refuses a state that is not one of the list and of the kind of the line.
    fn is_ours(&self, state: &[u8]) -> Result<(), Told> {
        if !program_turn::is_state_of(self.list, state) {
            let _said = eprintln!(self.rt;
                "watch: the state is one of another list: take another file for it, or remove it and begin at offset 0"
            ).is_ok();
            return Err(Told);
        }
        if program_turn::is_kind(state, Kind::Bytes) != (self.kind == Kind::Bytes) {
            let _said = eprintln!(self.rt;
                "watch: the state is one of a line of the other kind, bytes or segments: take another file for it"
            ).is_ok();
            return Err(Told);
        }
        Ok(())
    }

    // Cuts the file of lines to the length that a state says: not where it cannot be cut, or is shorter.
    fn cut_lines(&self, lines: &File, length: u64) -> Result<(), Told> {
        let to = signed(length);
        if !has_bytes(lines, to) {
            let _said = eprintln!(self.rt;
                "watch: lines are missing; their bytes should be {length}"
            ).is_ok();
            return Err(Told);
        }
        or_say(self.rt, "watch: the lines cannot be cut", cut(lines, to))
    }

    // Moves the line to the place of a state; where it cannot be moved, says where its sender begins.
    fn move_line(&self, line: &File, state: &[u8])
        requires { length state.now ≡ state_size }
    {
        let place = numbers::number_at(state, program_turn::PLACE_AT, 8);
        let mut at = line;
        if place == 0 || at.seek(SeekFrom::Start(signed(place))).is_ok() {
            return;
        }
        let _said = if program_turn::is_kind(state, Kind::Bytes) {
            eprintln!(self.rt; "watch: the line begins at byte {place}")
        } else {
            let first = numbers::number_at(state, program_turn::FIRST_AT, 4);
            let mut flow = [0u8; list_flow::FLOW_SIZE];
            program_turn::take_part(state, program_turn::FLOW_AT, &mut flow);
            let number = first.wrapping_add(segment_feed::offset_of(&flow)) % program_turn::CIRCLE;
            eprintln!(self.rt; "watch: the line begins at number {number}")
        }
        .is_ok();
    }

    // Opens the line.
    fn open_line(&self) -> Result<File, Told> {
        or_say(
            self.rt,
            "watch: the line cannot be opened",
            program_system::open_read(self.rt, self.line),
        )
    }

    // The line between two open files.
    fn between<'a>(&'a self, line: &'a File, lines: &'a File) -> Line<'a> {
        Line {
            list: self.list,
            keeping: true,
            ends: Ends::Files(Reach {
                rt: self.rt,
                line: Some(line),
                lines: Some(lines),
                // (it is a text, as the state was looked for by it)
                name: program_system::text_of(self.name).ok(),
            }),
        }
    }

    // Begins: the lines are emptied.
    fn begin(&self) -> Result<(), Told> {
        let opened = program_system::open_overwrite(self.rt, self.lines);
        let lines = or_say(self.rt, "watch: the lines cannot be opened", opened)?;
        let line = self.open_line()?;
        self.between(&line, &lines).watch(self.kind, &mut [0; 1]);
        Ok(())
    }

    // Goes on from a saved state.
    fn resume(&self, state: &mut [u8]) -> Result<(), Told>
        requires { length state.old ≡ state_size }
    {
        let opened = program_system::open_update(self.rt, self.lines);
        let lines = or_say(self.rt, "watch: the lines cannot be opened", opened)?;
        self.cut_lines(&lines, numbers::number_at(state, program_turn::LINES_AT, 8))?;
        let line = self.open_line()?;
        self.move_line(&line, state);
        self.between(&line, &lines).go_on(state, &mut [0; 1]);
        Ok(())
    }

    // Watches: from the saved state on, or from the beginning where there is none.
    fn watch(&self) -> Result<(), Told> {
        let mut state = program_turn::state_buffer();
        if !self.load(&mut state)? {
            return self.begin();
        }
        self.is_ours(&state)?;
        self.resume(&mut state)
    }
}

// Watches a live line by the list in a file: from its saved state on, or from the beginning where there is none. Paths are bytes; one that is no UTF-8 names no file.
pub fn live(
    rt: &HostRuntime,
    segments: bool,
    rules: &[u8],
    line: &[u8],
    name: &[u8],
    lines: &[u8],
) {
    let mut list = program_text::list_buffer();
    let n = program_text::read_rules(rt, rules, &mut list);
    let live = LiveLine {
        rt,
        kind: if segments {
            Kind::Segments
        } else {
            Kind::Bytes
        },
        list: &list[..n],
        line,
        name,
        lines,
    };
    let _told = live.watch().is_err();
}

// The same, by paths that are texts.
pub fn watch_line(
    rt: &HostRuntime,
    segments: bool,
    rules: &str,
    line: &str,
    name: &str,
    lines: &str,
) {
    live(
        rt,
        segments,
        rules.as_bytes(),
        line.as_bytes(),
        name.as_bytes(),
        lines.as_bytes(),
    );
}

// Watches a line of segments that is recorded on standard input, by the list in a file; lines go to standard output.
pub fn recorded(rt: &HostRuntime, rules: &[u8]) {
    let mut list = program_text::list_buffer();
    let n = program_text::read_rules(rt, rules, &mut list);
    let line = Line {
        list: &list[..n],
        keeping: false,
        ends: Ends::Files(Reach {
            rt,
            line: None,
            lines: None,
            name: None,
        }),
    };
    line.watch(Kind::Segments, &mut [0; 1]);
}

// The same, by a path that is a text.
pub fn watch_recorded(rt: &HostRuntime, rules: &str) {
    recorded(rt, rules.as_bytes());
}
