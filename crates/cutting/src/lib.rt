// How a text is cut into the parts of a long short message: how many it takes, and how much each holds.
#![tactic(auto)]

ghost use Rattle.std.specs.Prelude.{◌≡◌, ◌≤◌, ◌<◌, cond, length};
ghost use Rattle.parted.specs.Parts.{room_behind, parts_holding};
ghost use Rattle.parted.specs.Cutting.{planned_as, plan_room, part_length};
ghost use Rattle.parted.specs.Inner.{sized_plan};

use parted::Plan;
use words::Refusal;

// How a text is cut.
// Refuses a unit that is not in the alphabet (6, the first), more than 255 parts (5).
pub fn plan(ucs2: bool, units: &[u16]) -> Result<Plan, Refusal>
    ensures answer { result ≡ planned_as ucs2 units.now }
{
    if ucs2 {
        return planned(true, true, units.len());
    }
    let seen = to_septets::survey(units);
    // A match, as in paging: map_err would take a closure for one field.
    match seen.measured {
        Ok(n) => planned(false, seen.own, n),
        Err(unit) => Err(Refusal::Unlisted { unit }),
    }
}

// The same of so many units or septets: 5.
fn planned(ucs2: bool, plain: bool, content: usize) -> Result<Plan, Refusal>
    ensures { result ≡ sized_plan ucs2 plain content }
{
    let total = parts_for(ucs2, content);
    if 255 < total {
        return Err(Refusal::TooLong);
    }
    Ok(Plan {
        ucs2,
        plain,
        total,
        content,
    })
}

// How many parts n units or septets take, or would, where a message had more than 255.
fn parts_for(ucs2: bool, n: usize) -> usize
    ensures few { result ≤ 255 → parts_holding ucs2 n ≡ result }
    ensures over { 255 < result → 255 < parts_holding ucs2 n }
{
    if n <= room_behind(ucs2, false) {
        1
    } else {
        n.div_ceil(room_behind(ucs2, true))
    }
}

// How much a short message holds, with a header of 6 octets in front or without: units of UCS2, or septets.
fn room_behind(ucs2: bool, marked: bool) -> usize
    ensures { result ≡ room_behind ucs2 (cond marked 6 0) }
{
    match (ucs2, marked) {
        (true, false) => 70,
        (true, true) => 67,
        (false, false) => 160,
        (false, true) => 153,
    }
}

// How much a part of a plan holds. It refuses nothing.
// This and part_length are no methods, since a plan's type stands in parted, which has no code.
pub fn part_room(plan: Plan) -> usize
    ensures answer { result ≡ plan_room plan }
{
    room_behind(plan.ucs2, plan.total != 1)
}

// How much part k of a plan holds, counted from 0: the room, or what is left. It refuses nothing.
pub fn part_length(plan: Plan, k: u8) -> usize
    ensures answer { result ≡ part_length plan k }
{
    let room = part_room(plan);
    plan.content.saturating_sub(room * (k as usize)).min(room)
}
