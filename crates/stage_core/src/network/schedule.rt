//! A whole run of the network, whose order is given by a list of choices.

ghost use Rattle.std.specs.Prelude.{◌≡◌, ◌<◌, ◌≤◌, ◌*◌, ◌%◌, ◌^◌, IfOk, List, length};
ghost use Rattle.std.specs.Prelude.{slice_index};
ghost use Rattle.stage_core.specs.Events.{IsBounded, events};
ghost use Rattle.stage_core.specs.SecondLevel.{totals};
ghost use Rattle.stage_core.specs.Config.{hierarchy_of, ring_of};
ghost use Rattle.stage_core.specs.Network.{Machine, messages};
ghost use Rattle.stage_core.specs.Network.Choices.{IsNamed};
ghost use Rattle.stage_core.specs.Network.Cores.{parts_for, started};

use crate::config::Config;
use crate::laws::{second_level_sees_at_most_two, selections_make_at_most_two};
use crate::memory::NoMemory;
use crate::network::Core;
use crate::selection::Selection;
use crate::totals::Totals;
use din_trace::{DinRecord, MAX_LIMIT};
use std::alloc::Global;

/// The choice for the next step: an index below the number of machines that can step.
fn chosen(choices: &[u8], made: u64, enabled: u8) -> u8
    requires { 0 < enabled }
    ensures below { result < enabled }
    ensures exact { result ≡ slice_index choices.now made % enabled }
{
    match choices.get(made as usize) {
        Some(choice) => *choice % enabled,
        None => 0,
    }
}

/// The whole run of a network from its start, by these choices.
fn run(core: &mut Core, choices: &[u8]) -> Result<(Totals, u64), NoMemory>
    requires start { core.old ≡ started core.old.config core.old.events }
    requires short { messages (parts_for core.old.config) core.old.events ≤ 2 ^ 62 }
    ensures totals { IfOk result (λ answer. answer.0
        ≡ totals (hierarchy_of core.old.config) core.old.events) }
    ensures steps { IfOk result (λ answer. answer.1
        ≡ 2 * messages (parts_for core.old.config) core.old.events) }
    ensures schedule { IfOk result (λ answer. (ms : List Machine)
        × IsNamed (parts_for core.old.config) (ring_of core.old.config) choices.now
        core.old.events ms
        × (answer.1 ≡ length ms)) }
{
    let mut made: u64 = 0;
    'run: while core.enabled() > 0 {
        let nth = chosen(choices, made, core.enabled());
        core.step(nth)?;
        made += 1;
    }
    Ok((core.totals(), made))
}

/// Makes one step after another, until all machines have finished. Step `k` (from 0) is made by the
/// machine at index `choices[k]`, modulo their number, among those that can step; after the end of
/// the list, by the first of them. Answers the counts and the number of steps, neither of which
/// depends on the choices.
pub fn drive(
    alloc: Global,
    config: &Config,
    selection: &Selection,
    records: &[DinRecord],
    choices: &[u8],
) -> Result<(Totals, u64), NoMemory>
    requires bounded { IsBounded selection.now }
    requires short { length records.now ≤ MAX_LIMIT }
    ensures totals { IfOk result (λ answer. answer.0
        ≡ totals (hierarchy_of config.now) (events selection.now records.now)) }
    ensures steps { IfOk result (λ answer. answer.1
        ≡ 2 * messages (parts_for config.now) (events selection.now records.now)) }
    // The choices name a schedule of as many steps.
    ensures schedule { IfOk result (λ answer. (ms : List Machine)
        × IsNamed (parts_for config.now) (ring_of config.now) choices.now
        (events selection.now records.now) ms
        × (answer.1 ≡ length ms)) }
{
    second_level_sees_at_most_two();
    selections_make_at_most_two();
    let mut core = Core::new(alloc, config, selection, records)?;
    run(&mut core, choices)
}
