// A lent table, judged where it lies: one pass over the entries up to n finds what a step needs, those above n have to be zeros, and an
// accepted act writes four numbers at most. The values of a are lent where they lie too: a step makes no copy of them.
ghost use Rattle.std.specs.Prelude.{◌≡◌, ◌<◌, ◌≤◌};
ghost use Rattle.layout.specs.Encodings.{limits_told};
ghost use Rattle.layout.specs.Interface.{lent_gave};
ghost use Rattle.rules.specs.Survey.{nothing};
ghost use Rattle.layout.specs.Steps.{entries_noted, entries_up_to, survey_in, action_put, acted_in};

use crate::tables::{
    B, C, CLOCK, HEADER, LIMITS, N, TABLE, WORD, location_in, place_of, put_entry, since_in,
    stage_in,
};
use model::{Answer, Transition};
use rules::actions::{WAIT, transition_of};
use rules::answers::{check_from, judge, slot_of};
use rules::limits::numbers_stand;
use rules::stages::stage_of;
use rules::survey::{Scene, Survey, empty, fault, note_numbers, scene_of};
use values::are_zero;

// What a pass over the first entries finds, those of the processes from 1 on.
fn survey_entries(table: &[u64; TABLE], count: usize, scene: Scene) -> Survey
    requires { count ≤ 96 }
    ensures { result ≡ entries_noted (limits_told table.now) scene 1 (entries_up_to count table.now) nothing }
{
    let mut found = empty();
    for i in 0..count {
        let process = i as u64 + 1;
        let stage = stage_in(table, i);
        let since = since_in(table, i);
        found = note_numbers(found, scene, process, stage, since, table[LIMITS + i]);
        // another value is returned, not what was found: so that stays in registers
        if found.faulty != 0 {
            return fault();
        }
    }
    found
}

// [9.20] What is found of a table.
pub(crate) fn survey_table(table: &[u64; TABLE], acting: u64) -> Survey
    ensures { result ≡ survey_in table.now acting }
{
    let n = table[N];
    let c = table[C];
    let clock = table[CLOCK];
    if !numbers_stand(n, table[B], c, &table[LIMITS..HEADER], clock, table[WORD]) {
        return fault();
    }
    let count = n as usize;
    let found = survey_entries(table, count, scene_of(n, c, clock, acting));
    if found.faulty != 0 {
        return fault();
    }
    if !are_zero(&table[place_of(count)..]) {
        return fault();
    }
    found
}

// [9.130] Writes what an accepted action changes: the clock and the word, and but for a wait the entry of its process.
fn put_action(table: &mut [u64; TABLE], slot: usize, action: u64, transition: Transition, time: u64)
    requires { slot < 96 }
    ensures { table.new ≡ action_put table.old slot action transition time }
{
    table[CLOCK] = time;
    table[WORD] = transition.word;
    if action != WAIT {
        let to = transition.to;
        put_entry(table, slot, to);
    }
}

// [9.60] One action, from what was found of the table.
pub(crate) fn act(
    table: &mut [u64; TABLE],
    found: Survey,
    action: u64,
    process: u64,
    time: u64,
) -> Answer
    ensures { lent_gave result table.new ≡ acted_in table.old found action process time }
{
    let slot = slot_of(process);
    let own = location_in(table, slot);
    let transition = transition_of(action, process, time, table[WORD]);
    let answer = judge(
        found,
        scene_of(table[N], table[C], table[CLOCK], process),
        stage_of(own),
        check_from(own, table[B]),
        transition,
        action,
        time,
    );
    if answer.code == 0 {
        put_action(table, slot, action, transition, time);
    }
    answer
}
