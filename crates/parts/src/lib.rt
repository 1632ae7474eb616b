// Text into the parts of a long short message: how many it takes, one of them, and all end to end.
#![tactic(auto)]

ghost use Rattle.std.specs.Prelude.{◌≡◌, true, false, cond, [], ℕ, ◌+◌, ◌-◌, ◌*◌, ◌≤◌, ◌<◌, length, take, drop, replicate, get_or};
ghost use Rattle.lists.specs.Lists.{laid};
ghost use Rattle.lists.proofs.Below.{Below};
ghost use Rattle.letters.specs.Writing.{septets_of};
ghost use Rattle.letters.specs.Sized.{content_of};
ghost use Rattle.letters.proofs.Theorems.{Codable};
ghost use Rattle.stream.specs.Stream.{octets_for};
ghost use Rattle.headed.specs.Header.{concatenation_header, septets_over};
ghost use Rattle.parted.specs.Parts.{is_marked, mark_size, headed_octets, part_octets};
ghost use Rattle.parted.specs.Written.{count_answers, part_answers, part_leaves, all_octets, all_sizes, all_answers, all_leaves, sizes_leaves};
ghost use Rattle.parted.specs.Inner.{plan_count, plan_octets, text_part, text_part_leaves, text_parts, text_parts_leaves, text_sizes_leaves, codes_in, open_after};
ghost use Rattle.parted.proofs.Plans.{Cut};
ghost use Rattle.parted.proofs.Windows.{PlaceAt};
ghost use Rattle.parted.proofs.WriteSteps.{Placed, Blank, LaidPart, laid_at};

use coding::Reading;
use headed::Numbers;
use parted::{PartWritten, PartsWritten, Plan};
use words::{Refusal, Service};
use writer::TextCoding;

// Where a part begins in a text: at a unit, or behind the escape of one.
#[derive(Clone, Copy)]
struct Place {
    unit: usize,
    half: bool,
}

// How many parts a text takes under a reading.
// Refuses a reading that cannot be written for a short message (8), compressed text (1), a coding that holds no text (2), a unit that is not in the
// alphabet (6, the first), more than 255 parts (5).
pub fn count_parts(reading: Reading, units: &[u16]) -> Result<usize, Refusal>
    ensures answer { result ≡ count_answers reading units.now }
{
    let coding = writer::settle(Service::ShortMessage, reading)?;
    let plan = cutting::plan(coding.ucs2(), units)?;
    Ok(plan.total)
}

// Writes part `number`, from 1, of a text under a reading: how many octets, their count, whether a header stands in front, the coding octet, and how many
// parts the message has. A text that fits alone is one part without a header.
// Refuses as count_parts (8, 1, 2, 6, 5), then a part that the message lacks (10), a short buffer (7).
// Stores the octets at the front of out; a refusal stores nothing.
pub fn write_part(
    reading: Reading,
    reference: u8,
    units: &[u16],
    number: usize,
    out: &mut [u8],
) -> Result<PartWritten, Refusal>
    ensures answer { result ≡ part_answers reading reference units.now number (length out.old) }
    ensures buffer { out.new ≡ part_leaves reading reference units.now number out.old }
{
    let coding = writer::settle(Service::ShortMessage, reading)?;
    write_one(coding, reference, units, number, out)
}

// Writes a part where the coding is settled: 6, 5, 10, 7.
// Pages are written in this order too, by a plan, a head and answers of their own: one function for both would take each line as a member of a trait.
fn write_one(
    coding: TextCoding,
    reference: u8,
    units: &[u16],
    number: usize,
    out: &mut [u8],
) -> Result<PartWritten, Refusal>
    ensures answer { result ≡ text_part coding.ucs2 coding.octet reference units.now number (length out.old) }
    ensures buffer { out.new ≡ text_part_leaves coding.ucs2 reference units.now number out.old }
{
    let plan = cutting::plan(coding.ucs2(), units)?;
    if number == 0 || plan.total < number {
        return Err(Refusal::WrongPages);
    }
    let k = (number - 1) as u8;
    let size = part_size(plan, k);
    if out.len() < size.octets {
        return Err(Refusal::NoRoom);
    }
    let message = Message {
        plan,
        reference,
        units,
    };
    message.put_one(k, out);
    Ok(PartWritten {
        octets: size.octets,
        count: size.count,
        marked: plan.total != 1,
        coding: coding.octet(),
        parts: plan.total,
    })
}

// Writes all parts of a text under a reading end to end: how many octets, whether a header stands in front of each, the coding octet, and how many parts.
// Refuses as count_parts (8, 1, 2, 6, 5), then a short buffer, either of the two (7).
// Stores the octets at the front of out and, for each part, its count and how many octets it has at the front of sizes; a refusal stores nothing.
pub fn write_parts(
    reading: Reading,
    reference: u8,
    units: &[u16],
    out: &mut [u8],
    sizes: &mut [u8],
) -> Result<PartsWritten, Refusal>
    ensures answer { result ≡ all_answers reading reference units.now (length out.old) (length sizes.old) }
    ensures buffer { out.new ≡ all_leaves reading reference units.now (length sizes.old) out.old }
    ensures sizes { sizes.new ≡ sizes_leaves reading reference units.now (length out.old) sizes.old }
{
    let coding = writer::settle(Service::ShortMessage, reading)?;
    write_all(coding, reference, units, out, sizes)
}

// Writes all parts where the coding is settled: 6, 5, 7.
fn write_all(
    coding: TextCoding,
    reference: u8,
    units: &[u16],
    out: &mut [u8],
    sizes: &mut [u8],
) -> Result<PartsWritten, Refusal>
    ensures answer { result ≡ text_parts coding.ucs2 coding.octet reference units.now (length out.old) (length sizes.old) }
    ensures buffer { out.new ≡ text_parts_leaves coding.ucs2 reference units.now (length sizes.old) out.old }
    ensures sizes { sizes.new ≡ text_sizes_leaves coding.ucs2 reference units.now (length out.old) sizes.old }
{
    let plan = cutting::plan(coding.ucs2(), units)?;
    let octets = all_octets(plan);
    if out.len() < octets || sizes.len() < 2 * plan.total {
        return Err(Refusal::NoRoom);
    }
    let message = Message {
        plan,
        reference,
        units,
    };
    message.put_all(out, sizes);
    Ok(PartsWritten {
        octets,
        marked: plan.total != 1,
        coding: coding.octet(),
        parts: plan.total,
    })
}

// The count of a part, and how many octets it has.
#[derive(Clone, Copy)]
struct Size {
    count: usize,
    octets: usize,
}

// Those of part k of a plan, counted from 0.
fn part_size(plan: Plan, k: u8) -> Size
    ensures { (result.count ≡ plan_count plan k) × (result.octets ≡ plan_octets plan k) }
{
    let n = cutting::part_length(plan, k);
    if plan.ucs2 {
        let octets = mark_size(plan.total) + 2 * n;
        return Size {
            count: octets,
            octets,
        };
    }
    let count = mark_septets(plan.total) + n;
    Size {
        count,
        octets: groups::octets_for(count),
    }
}

// How many octets all parts have: every one but the last is full.
fn all_octets(plan: Plan) -> usize
    requires { (1 ≤ plan.total) × (plan.total ≤ 255) }
    ensures { result ≡ 140 * (plan.total - 1) + plan_octets plan (plan.total - 1) }
{
    let k = (plan.total - 1) as u8;
    let last = part_size(plan, k);
    140 * (plan.total - 1) + last.octets
}

// How many octets the header of each part takes, where a message has so many parts.
fn mark_size(total: usize) -> usize
    ensures { result ≡ mark_size total }
{
    if total == 1 { 0 } else { 6 }
}

// How many septets it takes. One function for both would take the two numbers, and say no more.
fn mark_septets(total: usize) -> usize
    ensures { result ≡ septets_over (mark_size total) }
{
    if total == 1 { 0 } else { 7 }
}

// A text that is cut into parts: how, the reference that they share, and its units.
#[derive(Clone, Copy)]
struct Message<'a> {
    plan: Plan,
    reference: u8,
    units: &'a [u16],
    ghost cut: { Cut plan units.now },
}

// What several methods require stays a requires: k is one argument, and the array is lent from one to the next and known by its lender.
impl Message<'_> {
    // Lays part k, counted from 0, over the front of out. The septets of a part stand in fixed memory, as in put_all.
    fn put_one(&self, k: u8, out: &mut [u8])
        requires { (k < self.now.plan.total) × (plan_octets self.now.plan k ≤ length out.old) }
        ensures { out.new ≡ laid (part_octets self.now.plan.ucs2 self.now.reference self.now.plan.total (content_of self.now.plan.ucs2 self.now.units.now) (k + 1)) out.old }
    {
        let mut septets = [0u8; 184];
        let from = self.place_of(k, &mut septets);
        self.put_part(k, from, &mut septets, out);
    }

    // Where part k begins, counted from 0. Parts before it are laid over the array and left there: only by their escapes is it known where they end. Of units that
    // are laid as they stand a part's number tells its place, and none is looked for.
    fn place_of(&self, k: u8, septets: &mut [u8]) -> Place
        requires { (k < self.now.plan.total) × Blank self.now.plan septets.old }
        ensures placed { Placed self.now.plan self.now.units.now k result.unit result.half }
        ensures blank { Blank self.now.plan septets.new }
    {
        let mut place = Place {
            unit: 0,
            half: false,
        };
        if self.plan.plain {
            return place;
        }
        for j in 0..k {
            place = self.lay_part(j, place, septets);
        }
        place
    }

    // Lays all parts over the front of out, end to end, and for each its count and how many octets it has over the front of sizes.
    fn put_all(&self, out: &mut [u8], sizes: &mut [u8])
        requires { (140 * (self.now.plan.total - 1) + plan_octets self.now.plan (self.now.plan.total - 1) ≤ length out.old) × (2 * self.now.plan.total ≤ length sizes.old) }
        ensures out_after { out.new ≡ laid (all_octets self.now.plan.ucs2 self.now.reference self.now.plan.total (content_of self.now.plan.ucs2 self.now.units.now) 1 self.now.plan.total) out.old }
        ensures sizes_after { sizes.new ≡ laid (all_sizes self.now.plan.ucs2 self.now.reference self.now.plan.total (content_of self.now.plan.ucs2 self.now.units.now) 1 self.now.plan.total) sizes.old }
    {
        let mut septets = [0u8; 184];
        let mut place = Place {
            unit: 0,
            half: false,
        };
        for k in 0..self.plan.total {
            let part = k as u8;
            place = self.put_part(part, place, &mut septets, &mut out[140 * k..]);
            let size = part_size(self.plan, part);
            sizes[2 * k] = size.count as u8;
            sizes[2 * k + 1] = size.octets as u8;
        }
    }

    // Lays part k, which begins at a place, over the front of out, and answers where the next one begins.
    // Always inlined, so that a message is taken apart where it is made, and no part reads it out of memory.
    #[inline(always)]
    fn put_part(&self, k: u8, from: Place, septets: &mut [u8], out: &mut [u8]) -> Place
        requires { (k < self.now.plan.total) × Blank self.now.plan septets.old × (plan_octets self.now.plan k ≤ length out.old) × Placed self.now.plan self.now.units.now k from.unit from.half }
        ensures out_after { out.new ≡ laid (part_octets self.now.plan.ucs2 self.now.reference self.now.plan.total (content_of self.now.plan.ucs2 self.now.units.now) (k + 1)) out.old }
        ensures placed { Placed self.now.plan self.now.units.now (k + 1) result.unit result.half }
        ensures blank { Blank self.now.plan septets.new }
    {
        let plan = self.plan;
        let n = cutting::part_length(plan, k);
        let numbers = Numbers {
            reference: self.reference,
            total: plan.total as u8,
            number: k + 1,
        };
        if plan.ucs2 {
            let begin = cutting::part_room(plan) * (k as usize);
            put_units(plan.total, numbers, &self.units[begin..begin + n], out);
            return from;
        }
        let next = self.lay_part(k, from, septets);
        let end = mark_septets(plan.total) + n;
        put_septets(plan.total, numbers, &septets[..end], out);
        next
    }

    // Lays the septets of part k over an array, behind those that its header takes, which are 0, and answers where the next part begins.
    fn lay_part(&self, k: u8, from: Place, septets: &mut [u8]) -> Place
        requires { (self.now.plan.ucs2 ≡ false) × (k < self.now.plan.total) × Blank self.now.plan septets.old × Placed self.now.plan self.now.units.now k from.unit from.half }
        ensures placed { Placed self.now.plan self.now.units.now (k + 1) result.unit result.half }
        ensures laid_part { LaidPart self.now.plan self.now.units.now k septets.new }
    {
        let plan = self.plan;
        let n = cutting::part_length(plan, k);
        let over = mark_septets(plan.total);
        if plan.plain {
            let begin = cutting::part_room(plan) * (k as usize);
            to_septets::low_octets(&self.units[begin..begin + n], &mut septets[over..over + n]);
            return from;
        }
        lay_pairs(self.units, from, over, n, septets)
    }
}

// Lays a header and behind it the octets of units over the front of out.
fn put_units(total: usize, numbers: Numbers, units: &[u16], out: &mut [u8])
    requires { (length units.now ≤ 70) × (mark_size total + 2 * length units.now ≤ length out.old) }
    ensures { out.new ≡ laid (headed_octets true (cond (is_marked total) (concatenation_header numbers) []) units.now) out.old }
{
    let size = mark_size(total);
    let _ = from_units::short_octets(units, &mut out[size..]);
    put_header(total, numbers, out);
}

// Packs septets over the front of out, and lays the header over the first of them, which are 0.
fn put_septets(total: usize, numbers: Numbers, septets: &[u8], out: &mut [u8])
    requires septets_len_bound { (length septets.now ≤ 160) × (septets_over (mark_size total) ≤ length septets.now) × (octets_for (length septets.now) ≤ length out.old) × Below 128 septets.now }
    requires septets_value { take (septets_over (mark_size total)) septets.now ≡ replicate (septets_over (mark_size total)) 0 }
    ensures { out.new ≡ laid (headed_octets false (cond (is_marked total) (concatenation_header numbers) []) (drop (septets_over (mark_size total)) septets.now)) out.old }
{
    let _ = packing::pack_short(septets, out);
    put_header(total, numbers, out);
}

// Lays the header of a part over the front of out, where a message has so many parts: none of a lone one.
fn put_header(total: usize, numbers: Numbers, out: &mut [u8])
    requires { mark_size total ≤ length out.old }
    ensures { out.new ≡ laid (cond (is_marked total) (concatenation_header numbers) []) out.old }
{
    if total == 1 {
        return;
    }
    out[..6].copy_from_slice(&header::concatenation_header(numbers));
}

// What this and the next two require of the text and the array is of two lent things at once: a type for both would be taken apart in each.
// Lays n septets of a text from a place on over those of an array that stand behind `over` others, and answers where they end. Behind an escape the escape is
// laid too, over the 0 before them, which is put back.
fn lay_pairs(units: &[u16], from: Place, over: usize, n: usize, septets: &mut [u8]) -> Place
    requires codable { Codable units.now × (over + n ≤ length septets.old) × (length septets.old ≤ 184) }
    requires over_nonzero { from.half ≡ true → (0 < over) × (get_or septets.old (over - 1) 0 ≡ 0) }
    requires by_index { (m : ℕ) × (PlaceAt units.now m from.unit from.half × (m + n ≤ length (septets_of units.now))) }
    ensures by_index_2 { (m : ℕ) → PlaceAt units.now m from.unit from.half → m + n ≤ length (septets_of units.now) → PlaceAt units.now (m + n) result.unit result.half }
    ensures by_index_3 { (m : ℕ) → PlaceAt units.now m from.unit from.half → m + n ≤ length (septets_of units.now) → septets.new ≡ laid_at over (take n (drop m (septets_of units.now))) septets.old }
{
    if from.half {
        encode_part(units, from.unit, over - 1, n + 1, septets);
        septets[over - 1] = 0;
    } else {
        encode_part(units, from.unit, over, n, septets);
    }
    let run = run_of(from.half, &septets[over..over + n]);
    Place {
        unit: from.unit + run.codes,
        half: run.half,
    }
}

// Lays the first n septets of a text from a unit on over those of an array from a place on. Half as many units first, which take no more than one septet too many; then
// as many as there is still room for: so at most a third more units are looked at than are laid.
fn encode_part(units: &[u16], unit: usize, at: usize, n: usize, septets: &mut [u8])
    requires { Codable units.now × (unit ≤ length units.now) × (at + n ≤ length septets.old) × (length septets.old ≤ 184) × (n ≤ length (septets_of (drop unit units.now))) }
    ensures { septets.new ≡ laid_at at (take n (septets_of (drop unit units.now))) septets.old }
{
    let some = n.div_ceil(2).min(units.len() - unit);
    let told = to_septets::encode(&units[unit..unit + some], &mut septets[at..at + n]);
    let done = told.septets;
    if done < n {
        encode_run(units, unit + some, at + done, n - done, septets);
    }
}

// Lays them in one step, by as many units as septets: each unit takes one at least.
fn encode_run(units: &[u16], unit: usize, at: usize, n: usize, septets: &mut [u8])
    requires { Codable units.now × (unit ≤ length units.now) × (at + n ≤ length septets.old) × (length septets.old ≤ 184) × (n ≤ length (septets_of (drop unit units.now))) }
    ensures { septets.new ≡ laid_at at (take n (septets_of (drop unit units.now))) septets.old }
{
    let few = n.min(units.len() - unit);
    to_septets::encode(&units[unit..unit + few], &mut septets[at..at + n]);
}

// How many of a run of septets are no escapes, each of which ends a unit, and whether the last is one.
#[derive(Clone, Copy)]
struct Run {
    codes: usize,
    half: bool,
}

// That of septets, where an escape may stand before them. An octet counts them, sixteen at a time.
fn run_of(half: bool, septets: &[u8]) -> Run
    requires { length septets.now ≤ 184 }
    ensures { (result.codes ≡ codes_in septets.now) × (result.half ≡ open_after half septets.now) }
{
    let mut codes: u8 = 0;
    for septet in septets {
        if *septet != 0x1b {
            codes += 1;
        }
    }
    Run {
        codes: codes as usize,
        half: ends_half(half, septets),
    }
}

// Whether an escape stands last, in the septets or before them where there are none.
fn ends_half(half: bool, septets: &[u8]) -> bool
    ensures { result ≡ open_after half septets.now }
{
    match septets.last() {
        Some(last) => *last == 0x1b,
        None => half,
    }
}
