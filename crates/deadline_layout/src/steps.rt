// A lent deadline table, judged where it lies: one pass over the entries up to n finds what a step needs, those above n have to be zeros, and
// an accepted action writes five numbers at most.
ghost use Rattle.std.specs.Prelude.{◌≡◌, ◌+◌, ◌^◌, ◌<◌, ◌≤◌, ◌==◌, length};
ghost use Rattle.std.specs.List.{concat};
ghost use Rattle.values.specs.Bits.{are_zero};
ghost use Rattle.layout.specs.Interface.{lent_gave};
ghost use Rattle.rules.specs.Survey.{nothing};
ghost use Rattle.deadline_layout.specs.Steps.{entries_noted_with, survey_with, action_put_with, acted_with};
ghost use Rattle.deadline_layout.specs.Steps.{OfArrival, Stands, standing_noted, look_at};

use crate::tables::{FIRST, LAST, STAGE, STRIDE, TABLE, entry_in, put_entry};
use deadlines::bounds::{are_zero, is_settled};
use deadlines::locations::dated;
use layout::tables::{B, C, CLOCK, HEADER, LIMITS, N, WORD};
use model::{Answer, Transition};
use rules::actions::{WAIT, transition_of};
use rules::answers::{judge, slot_of};
use rules::limits::numbers_stand;
use rules::stages::{CHECKING, CRITICAL, LEAVING, REMAINDER};
use rules::survey::{Scene, Survey, empty, fault, note_critical, note_due, scene_of};

// Looks at one entry

// Whether the two times of an entry come `opens` and `closes` after one arrival, and it is not after the clock. With 0 as the first deadline so
// far nothing else is asked: no last time is sooner.
fn are_of_arrival(entry: &[u64; STRIDE], clock: u64, opens: u64, closes: u64) -> bool
    ensures { OfArrival entry.now clock opens closes result }
{
    is_settled(0, clock, entry[FIRST], entry[LAST], opens, closes)
}

// Whether the numbers of an entry stand, whose process has the a `limit`: where they do not, a look at it finds a fault, and where they do, what
// `note` finds. The times and the a are read where they are needed: read before the tests on the stage they cost each entry an instruction more.
// Most entries are in the remainder, and most of the others are testing. Entering has its test before that for critical: so the compiler knows of
// each stage past it that it is not critical, and `note` need not ask again.
fn stands(entry: &[u64; STRIDE], limit: &u64, b: u64, scene: Scene) -> bool
    requires { scene.clock + b < 2 ^ 64 }
    ensures { Stands entry.now limit.now b scene result }
{
    let stage = entry[STAGE];
    if stage == REMAINDER {
        return are_zero(0, entry[FIRST], entry[LAST]);
    }
    if stage < CHECKING {
        return are_of_arrival(entry, scene.clock, 0, *limit);
    }
    if stage == CHECKING {
        return are_of_arrival(entry, scene.clock, b, scene.c);
    }
    if stage < CRITICAL {
        return are_of_arrival(entry, scene.clock, 0, *limit);
    }
    if stage == CRITICAL {
        return are_zero(0, entry[FIRST], entry[LAST]);
    }
    if LEAVING < stage {
        return false;
    }
    are_of_arrival(entry, scene.clock, 0, *limit)
}

// What is found once the entry of a process is looked at too, whose numbers stand.
fn note(found: Survey, entry: &[u64; STRIDE], process: u64, scene: Scene) -> Survey
    ensures { result ≡ standing_noted entry.now scene process found }
{
    let stage = entry[STAGE];
    if stage == REMAINDER {
        return found;
    }
    if stage == CRITICAL {
        return note_critical(found, scene.acting, process);
    }
    note_due(found, scene.clock, process, entry[LAST])
}

// The pass

// What is found once the entry of a process is looked at too. A fault is another value than what was found: so that stays in registers, where this
// is set into the loops, which the compiler does not do by itself.
#[inline(always)]
fn look(
    found: Survey,
    entry: &[u64; STRIDE],
    process: u64,
    b: u64,
    limit: &u64,
    scene: Scene,
) -> Survey
    requires known { process ≤ scene.n }
    requires opens { scene.clock + b < 2 ^ 64 }
    ensures { result ≡ look_at entry.now scene process b limit.now found }
{
    if !stands(entry, limit, b, scene) {
        return fault();
    }
    note(found, entry, process, scene)
}

// What a pass over entries finds, those of the processes from 1 on. The inner loop, of a fixed length, is written out by the compiler. Of fours out
// of `as_chunks` it knows that three entries at most are left, and writes these out too, which is 650 bytes more.
// kept: (b) in fours: in one `for` over all entries a step takes 1.066 of the first engine's where that is most (goal "deadlines": at most 1.0); so 0.998
fn survey_entries(entries: &[[u64; STRIDE]], limits: &[u64], b: u64, scene: Scene) -> Survey
    requires n_entries { length entries.now ≡ scene.n }
    requires own { scene.n ≤ length limits.now }
    requires opens { scene.clock + b < 2 ^ 64 }
    ensures { result ≡ entries_noted_with b limits.now scene 1 (concat entries.now) nothing }
{
    let mut found = empty();
    let mut done: usize = 0;
    let mut left = entries;
    while let Some((four, rest)) = left.split_first_chunk::<4>() {
        for (j, entry) in four.iter().enumerate() {
            let i = done + j;
            found = look(found, entry, (i as u64) + 1, b, &limits[i], scene);
            if found.faulty != 0 {
                return fault();
            }
        }
        done += 4;
        left = rest;
    }
    for (j, entry) in left.iter().enumerate() {
        let i = done + j;
        found = look(found, entry, (i as u64) + 1, b, &limits[i], scene);
        if found.faulty != 0 {
            return fault();
        }
    }
    found
}

// The bits of the numbers of entries together: 0 just where all are 0. Two sums take every other number, and four entries a turn are written out
// by the compiler: so it takes two numbers by one instruction.
fn bits(entries: &[[u64; STRIDE]]) -> u64
    ensures { (result == 0) ≡ are_zero (concat entries.now) }
{
    let (fours, rest) = entries.as_chunks::<4>();
    let mut even: u64 = 0;
    let mut odd: u64 = 0;
    for four in fours {
        for [a, b] in four.as_flattened().as_chunks::<2>().0 {
            even |= a;
            odd |= b;
        }
    }
    for [a, b, c] in rest {
        even |= a | b | c;
    }
    even | odd
}

// [12.115] What is found of a deadline table.
pub(crate) fn survey_table(table: &[u64; TABLE], acting: u64) -> Survey
    ensures { result ≡ survey_with table.now acting }
{
    let n = table[N];
    let b = table[B];
    let c = table[C];
    let clock = table[CLOCK];
    let limits = &table[LIMITS..HEADER];
    if !numbers_stand(n, b, c, limits, clock, table[WORD]) {
        return fault();
    }
    let (entries, _) = table[HEADER..].as_chunks::<STRIDE>();
    let (theirs, above) = entries.split_at(n as usize);
    let found = survey_entries(theirs, limits, b, scene_of(n, c, clock, acting));
    if found.faulty != 0 {
        return fault();
    }
    if bits(above) != 0 {
        return fault();
    }
    found
}

// An action

// [12.60] Writes what an accepted action changes: the clock and the word, and but for a wait the entry of its process.
fn put_action(table: &mut [u64; TABLE], slot: usize, action: u64, transition: Transition, time: u64)
    requires { slot < 96 }
    ensures { table.new ≡ action_put_with table.old slot action transition time }
{
    if action != WAIT {
        let to = transition.to;
        let reached = dated(table[B], table[C], table[LIMITS + slot], to);
        put_entry(table, slot, reached);
    }
    table[CLOCK] = time;
    table[WORD] = transition.word;
}

// [12.130] One action, from what was found of the table.
pub(crate) fn act(
    table: &mut [u64; TABLE],
    found: Survey,
    action: u64,
    process: u64,
    time: u64,
) -> Answer
    ensures { lent_gave result table.new ≡ acted_with table.old found action process time }
{
    let slot = slot_of(process);
    let own = entry_in(table, slot);
    let transition = transition_of(action, process, time, table[WORD]);
    let answer = judge(
        found,
        scene_of(table[N], table[C], table[CLOCK], process),
        own[STAGE],
        own[FIRST],
        transition,
        action,
        time,
    );
    if answer.code == 0 {
        put_action(table, slot, action, transition, time);
    }
    answer
}
