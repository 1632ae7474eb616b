// The parts of a long short message joined, in whatever order they come, into its text.
#![tactic(auto)]

ghost use Rattle.std.specs.Prelude.{◌≡◌, true, false, cond, ◌-◌, ◌%◌, ◌≤◌, eqb, leb, length, get_or};
ghost use Rattle.lists.specs.Lists.{laid};
ghost use Rattle.lists.proofs.Below.{Below};
ghost use Rattle.letters.specs.Reading.{text_of};
ghost use Rattle.stream.specs.Storing.{given_answers, given_leaves};
ghost use Rattle.parted.specs.Joined.{start_at, part_in, place_of, joined_content, joined_text, join_answers, join_leaves};
ghost use Rattle.parted.specs.InnerJoined.{held_joins, held_join_leaves, text_joins, text_join_leaves, Sorted, numbered_content, over_in, ends_open, run_behind, run_read, run_open, run_in, Ready};

use coding::Reading;
use part_order::{Parts, Tables};
use parted::PartsJoined;
use words::{Refusal, Service};

// Joins parts, lent end to end in any order beside a list of their counts: the units of their text, what the coding octet says, their reference, and
// how many they are.
// Refuses compressed text (1), a coding that holds no text (2), octets that are not what the counts ask (4), a header that is longer than its part or,
// in septets, than its count, or whose elements are wrong (12), an odd octet of UCS2 behind a header (4), parts that are not those of one message (10),
// a short buffer (7): each over all parts before the next. Stores the units at the front of out; a refusal stores nothing.
pub fn join_parts(
    coding: u8,
    counts: &[u8],
    octets: &[u8],
    out: &mut [u16],
) -> Result<PartsJoined, Refusal>
    ensures answer { result ≡ join_answers coding counts.now octets.now (length out.old) }
    ensures buffer { out.new ≡ join_leaves coding counts.now octets.now out.old }
{
    let reading = coding::read_octet(Service::ShortMessage, coding)?;
    join_held(reading, counts, octets, out)
}

// The same behind the coding octet.
fn join_held(
    reading: Reading,
    counts: &[u8],
    octets: &[u8],
    out: &mut [u16],
) -> Result<PartsJoined, Refusal>
    ensures answer { result ≡ held_joins reading counts.now octets.now (length out.old) }
    ensures buffer { out.new ≡ held_join_leaves reading counts.now octets.now out.old }
{
    let held = reading.holds(Service::ShortMessage)?;
    let parts = Parts {
        ucs2: held.is_ucs2(),
        counts,
        octets,
    };
    join_text(reading, &parts, out)
}

// Joins the text of parts, as 7-bit text or as UCS2: 4, 12, 4, 10, 7.
// Never inlined: its tables are on the stack only while it runs.
#[inline(never)]
fn join_text(reading: Reading, parts: &Parts, out: &mut [u16]) -> Result<PartsJoined, Refusal>
    ensures answer { result ≡ text_joins reading parts.now.ucs2 parts.now.counts.now parts.now.octets.now (length out.old) }
    ensures buffer { out.new ≡ text_join_leaves parts.now.ucs2 parts.now.counts.now parts.now.octets.now out.old }
{
    let mut tables = Tables::new();
    let reference = tables.order(parts)?;
    let ordered = Ordered {
        parts: *parts,
        tables: &tables,
    };
    let units = ordered.store_text(out)?;
    Ok(PartsJoined {
        units,
        reading,
        reference,
        parts: parts.counts.len(),
    })
}

// The parts of one message, and the tables that say which of them has which number and where it begins.
#[derive(Drop)]
struct Ordered<'a> {
    parts: Parts<'a>,
    tables: &'a Tables,
    ghost sorted: { Sorted parts.ucs2 parts.counts.now parts.octets.now tables.now.places tables.now.starts },
}

// Where the part of a number begins, its count, how much of that the header takes, and how many septets or units stand behind it.
#[derive(Clone, Copy)]
struct PartAt {
    start: usize,
    count: usize,
    over: usize,
    held: usize,
}

// Where the septets of one part that are read together stand, and whether an escape is left behind them whose code is in the next part.
#[derive(Clone, Copy)]
struct Run {
    begin: usize,
    end: usize,
    half: bool,
}

// Each pass is a for over numbers, and not over a slice: by its number a part is looked up in the tables, in whatever order the parts came.
impl<'a> Ordered<'a> {
    // Stores the text of the parts: 7.
    fn store_text(&self, out: &mut [u16]) -> Result<usize, Refusal>
        ensures answer { result ≡ given_answers (joined_text self.now.parts.ucs2 self.now.parts.counts.now self.now.parts.octets.now) (length out.old) }
        ensures buffer { out.new ≡ given_leaves (joined_text self.now.parts.ucs2 self.now.parts.counts.now self.now.parts.octets.now) out.old }
    {
        if !self.has_room(out.len()) {
            return Err(Refusal::NoRoom);
        }
        if self.parts.ucs2 {
            return Ok(self.join_units(out));
        }
        Ok(self.join_septets(out))
    }

    // Whether so much room holds the text. Septets are never fewer than the units that they read as, so that these are counted only where the septets
    // have too little room.
    fn has_room(&self, room: usize) -> bool
        ensures { result ≡ leb (length (joined_text self.now.parts.ucs2 self.now.parts.counts.now self.now.parts.octets.now)) room }
    {
        if self.content_length() <= room {
            return true;
        }
        !self.parts.ucs2 && self.text_length() <= room
    }

    // How many septets or units all parts hold.
    fn content_length(&self) -> usize
        ensures { result ≡ length (joined_content self.now.parts.ucs2 self.now.parts.counts.now self.now.parts.octets.now) }
    {
        let mut n: usize = 0;
        for k in 0..self.parts.counts.len() {
            n += self.part_at(k + 1).held;
        }
        n
    }

    // The part of a number, from 1.
    fn part_at(&self, k: usize) -> PartAt
        requires { (1 ≤ k) × (k ≤ length self.now.parts.counts.now) }
        ensures start_value { (result.start ≡ start_at self.now.parts.ucs2 self.now.parts.counts.now (place_of self.now.parts.ucs2 self.now.parts.counts.now self.now.parts.octets.now k)) × (result.count ≡ get_or self.now.parts.counts.now (place_of self.now.parts.ucs2 self.now.parts.counts.now self.now.parts.octets.now k) 0) }
        ensures over_value { (result.over ≡ over_in self.now.parts.ucs2 (part_in self.now.parts.ucs2 self.now.parts.counts.now self.now.parts.octets.now (place_of self.now.parts.ucs2 self.now.parts.counts.now self.now.parts.octets.now k))) × (result.held ≡ length (numbered_content self.now.parts.ucs2 self.now.parts.counts.now self.now.parts.octets.now k)) }
    {
        let place = self.tables.places[k] as usize - 1;
        let start = self.tables.starts[place] as usize;
        let count = self.parts.counts[place] as usize;
        let len = self.parts.octets[start];
        if self.parts.ucs2 {
            let over = len as usize + 1;
            return PartAt {
                start,
                count,
                over,
                held: (count - over) / 2,
            };
        }
        let over = header::septets_over(len);
        PartAt {
            start,
            count,
            over,
            held: count - over,
        }
    }

    // UCS2: lays the units of all parts over the front of out, in the order of their numbers.
    fn join_units(&self, out: &mut [u16]) -> usize
        requires { (self.now.parts.ucs2 ≡ true) × (length (joined_text true self.now.parts.counts.now self.now.parts.octets.now) ≤ length out.old) }
        ensures answer { result ≡ length (joined_text true self.now.parts.counts.now self.now.parts.octets.now) }
        ensures buffer { out.new ≡ laid (joined_text true self.now.parts.counts.now self.now.parts.octets.now) out.old }
    {
        let mut at: usize = 0;
        for k in 0..self.parts.counts.len() {
            let part = self.part_at(k + 1);
            let from = part.start + part.over;
            let end = part.start + part.count;
            at += to_units::lay_units(&self.parts.octets[from..end], &mut out[at..]);
        }
        at
    }

    // 7-bit text: reads all parts into the front of out, run by run in the order of their numbers. An escape may stand last in one part, and its code
    // first in the next.
    fn join_septets(&self, out: &mut [u16]) -> usize
        requires { (self.now.parts.ucs2 ≡ false) × (length (joined_text false self.now.parts.counts.now self.now.parts.octets.now) ≤ length out.old) }
        ensures answer { result ≡ length (joined_text false self.now.parts.counts.now self.now.parts.octets.now) }
        ensures buffer { out.new ≡ laid (joined_text false self.now.parts.counts.now self.now.parts.octets.now) out.old }
    {
        let mut half = false;
        let mut at: usize = 0;
        for k in 0..self.parts.counts.len() {
            let mut septets = [0u8; 184];
            let run = self.run_at(k + 1, half, &mut septets);
            let begin = run.begin;
            let end = run.end;
            at += read_run(&septets[begin..end], &mut out[at..]);
            half = run.half;
        }
        at
    }

    // That the parts are 7-bit stays a requires of these three methods: the others serve both, and a second struct would say nothing else.
    // How many units the text takes: each run is read into an array of our own. Its passes are those of join_septets: one function over what is done
    // with a run has to promise both what it stores and that it stores nothing, and is longer than the two.
    fn text_length(&self) -> usize
        requires { self.now.parts.ucs2 ≡ false }
        ensures { result ≡ length (joined_text false self.now.parts.counts.now self.now.parts.octets.now) }
    {
        let mut half = false;
        let mut n: usize = 0;
        for k in 0..self.parts.counts.len() {
            let mut septets = [0u8; 184];
            let run = self.run_at(k + 1, half, &mut septets);
            let begin = run.begin;
            let end = run.end;
            let mut units = [0u16; 184];
            n += read_run(&septets[begin..end], &mut units);
            half = run.half;
        }
        n
    }

    // Lays the septets of the part of a number over an array: where its run stands, behind an open escape or not. That stands in front of the text, over a
    // septet that the header takes; the escape of the last part stays in its run.
    fn run_at(&self, k: usize, half: bool, septets: &mut [u8]) -> Run
        requires { (self.now.parts.ucs2 ≡ false) × (1 ≤ k) × (k ≤ length self.now.parts.counts.now) × (length septets.old ≡ 184) }
        ensures ready { Ready septets.new result.begin result.end }
        ensures end_after { run_in septets.new result.begin result.end ≡ run_read (leb (length self.now.parts.counts.now) k) (run_behind half (numbered_content false self.now.parts.counts.now self.now.parts.octets.now k)) }
        ensures half_value { result.half ≡ run_open (leb (length self.now.parts.counts.now) k) (run_behind half (numbered_content false self.now.parts.counts.now self.now.parts.octets.now k)) }
    {
        let part = self.part_at(k);
        let start = part.start;
        let count = part.count;
        let end = start + groups::octets_for(count);
        let _ = packing::unpack_all(
            Service::ShortMessage,
            &self.parts.octets[start..end],
            count,
            septets,
        );
        let before = part.over - 1;
        septets[before] = 0x1b;
        let begin = without(part.over, half);
        let last = self.parts.counts.len() <= k;
        let left = stays_open(last, &septets[begin..count]);
        Run {
            begin,
            end: without(count, left),
            half: left,
        }
    }
}

// One less, or as many. By `one as usize` its proof has to name the prover's own number of a bool.
fn without(n: usize, one: bool) -> usize
    requires { 1 ≤ n }
    ensures { result ≡ n - cond one 1 0 }
{
    if one {
        return n - 1;
    }
    n
}

// Whether the code of a run's last escape is in the next part: behind an odd number of escapes at its end, if it is not the last run.
fn stays_open(last: bool, run: &[u8]) -> bool
    ensures { result ≡ run_open last run.now }
{
    !last && escapes_behind(run) % 2 == 1
}

// How many escapes stand at the end of a run.
fn escapes_behind(run: &[u8]) -> usize
    ensures { eqb (result % 2) 1 ≡ ends_open false run.now }
{
    match run.iter().rposition(|septet| *septet != 0x1b) {
        Some(last) => run.len() - 1 - last,
        None => run.len(),
    }
}

// Reads a run into the front of out, which has room for it: how many units.
fn read_run(run: &[u8], out: &mut [u16]) -> usize
    requires { Below 128 run.now × (length (text_of run.now) ≤ length out.old) }
    ensures answer { result ≡ length (text_of run.now) }
    ensures buffer { out.new ≡ laid (text_of run.now) out.old }
{
    match to_text::septets_to_text(run, out) {
        Ok(units) => units,
        Err(_) => 0,
    }
}
