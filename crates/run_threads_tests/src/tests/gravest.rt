//! Which of several threads' ends a run answers.

use din_trace::TraceFault;
use run_threads::{RunFault, Stop, gravest};
use std::process::Abort;

/// The ways in which a thread may end.
static ENDS: [Option<Stop>; 3] = [None, Some(Stop::Memory), Some(Stop::Cut)];

#[test]
fn a_fault_of_the_trace_goes_before_all_others(rt: HostRuntime) {
    let fault = RunFault::Trace(TraceFault::TooLong);
    for i in ENDS {
        for d in ENDS {
            for merge in ENDS {
                assert_eq!(rt; gravest(fault, i, d, merge), fault);
            }
        }
    }
}

/// However two of the threads end, a failed allocation in the third is answered.
fn wants_memory(rt: &impl Abort, splitter: RunFault, one: Option<Stop>, other: Option<Stop>) {
    let memory = Some(Stop::Memory);
    assert_eq!(rt; gravest(splitter, memory, one, other), RunFault::Memory);
    assert_eq!(rt; gravest(splitter, one, memory, other), RunFault::Memory);
    assert_eq!(rt; gravest(splitter, one, other, memory), RunFault::Memory);
}

#[test]
fn want_of_memory_goes_before_threads_and_cuts(rt: HostRuntime) {
    for splitter in [RunFault::Memory, RunFault::Threads, RunFault::Cut] {
        for one in ENDS {
            for other in ENDS {
                wants_memory(&rt, splitter, one, other);
            }
        }
    }
}

#[test]
fn without_these_the_splitter_s_fault_is_answered(rt: HostRuntime) {
    let ends = [None, Some(Stop::Cut)];
    for splitter in [RunFault::Memory, RunFault::Threads, RunFault::Cut] {
        for i in ends {
            for d in ends {
                for merge in ends {
                    assert_eq!(rt; gravest(splitter, i, d, merge), splitter);
                }
            }
        }
    }
}
